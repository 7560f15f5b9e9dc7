//! The counts as text.

ghost use Rattle.std.specs.Prelude.{◌≡◌, ◌≤◌, ◌++◌, OnOk, length, map};
ghost use Rattle.summary.specs.Texts.{count_text, counts_text, place_counts_text, refusal_counts_text, word_text, words_text};

use crate::counts::Counts;
use crate::wording::{OUTCOME_WORDS, REFUSAL_WORDS};
use itoa::Buffer;
use std::alloc::AllocError;

/// Appends the line of a count.
fn put_count(text: &mut Vec<u8>, word: &str, count: u64) -> Result<(), AllocError>
    ensures { OnOk result (text.new.items ≡ text.old.items ++ count_text word.now count) }
{
    let mut buffer = Buffer::new();
    text.extend_from_slice(word.as_bytes())?;
    text.extend_from_slice(b" ")?;
    text.extend_from_slice(buffer.format(count).as_bytes())?;
    text.extend_from_slice(b"\n")
}

/// Appends the line of a word's count. A refusal that doesn't occur has none.
fn put_word(text: &mut Vec<u8>, word: &str, count: u64, is_refusal: bool) -> Result<(), AllocError>
    ensures { OnOk result (text.new.items ≡ text.old.items ++ word_text is_refusal word.now count) }
{
    if is_refusal {
        if count == 0 {
            return Ok(());
        }
        text.extend_from_slice(b"refused ")?;
    }
    put_count(text, word, count)
}

/// Appends the lines of some words with their counts.
fn put_words(
    text: &mut Vec<u8>,
    words: &[&str],
    counts: &[u64],
    are_refusals: bool,
) -> Result<(), AllocError>
    requires { length words.now ≤ length counts.now }
    ensures { OnOk result (text.new.items
        ≡ text.old.items ++ words_text are_refusals (map (λ word. word.now) words.now) counts.now) }
{
    for (index, word) in words.iter().enumerate() {
        put_word(text, word, counts[index], are_refusals)?;
    }
    Ok(())
}

/// Appends the lines of places.
fn put_places(text: &mut Vec<u8>, counts: &Counts) -> Result<(), AllocError>
    ensures { OnOk result (text.new.items ≡ text.old.items ++ place_counts_text counts.now) }
{
    put_count(text, "lines", counts.lines)?;
    put_count(text, "places", counts.places)?;
    put_words(text, &OUTCOME_WORDS, &counts.outcomes, false)
}

/// Appends the lines of refused lines.
fn put_refused(text: &mut Vec<u8>, counts: &Counts) -> Result<(), AllocError>
    ensures { OnOk result (text.new.items ≡ text.old.items ++ refusal_counts_text counts.now) }
{
    put_count(text, "refused", counts.refused)?;
    put_words(text, &REFUSAL_WORDS, &counts.refusals, true)
}

/// Appends the lines of a summary. After an error some of them may be appended.
pub fn put_counts(text: &mut Vec<u8>, counts: &Counts) -> Result<(), AllocError>
    ensures { OnOk result (text.new.items ≡ text.old.items ++ counts_text counts.now) }
{
    put_places(text, counts)?;
    put_refused(text, counts)
}
