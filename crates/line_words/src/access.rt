//! Accesses as a line spells them.
ghost use Rattle.std.specs.Prelude.{◌≡◌, ◌++◌, ◌∷◌, List, ℕ, None, Some, true, false, MatchOption, IfOk, IfErr, OnOk};
ghost use Rattle.line_words.specs.Access.{letter_if, letters, access_word, IsAccess, is_in_order, is_letters, before_colon, after_colon, access_fault};

use crate::fault::LineFault;
use crate::name::{Name, has_name_form};
use crate::number::plain_value;
use crate::word_list::place_from;
use model_base::{Kinds, RowNumber};

/// A row that a statement declares, with its table's name.
#[derive(Drop)]
pub struct RawAccess<'a> {
    pub table: Name<'a>,
    pub row: RowNumber,
    /// One kind or more.
    pub kinds: Kinds,
}

/// The parts before and after the first colon.
fn cut(word: &[u8]) -> (&[u8], &[u8])
    ensures before { result.0.now ≡ before_colon word.now }
    ensures behind { result.1.now ≡ after_colon word.now }
{
    let end = place_from(word, 0, b':');
    if end >= word.len() {
        return (word, b"");
    }
    (&word[..end], &word[end + 1..])
}

/// Takes a letter off, if it is first.
#[tactic(auto, using(crate::proofs::AccessLemmas::order_nil, crate::proofs::AccessLemmas::order_other))]
fn strip(text: &[u8], letter: u8) -> (bool, &[u8])
    ensures text { text.now ≡ letter_if result.0 letter ++ result.1.now }
    ensures order { (cs : List ℕ) → is_in_order (letter ∷ cs) text.now ≡ is_in_order cs result.1.now }
{
    let Some((first, rest)) = text.split_first() else {
        return (false, text);
    };
    if *first == letter {
        return (true, rest);
    }
    (false, text)
}

/// The kinds that letters name.
fn kinds_of(word: &[u8]) -> Option<Kinds>
    ensures { MatchOption result (is_letters word.now ≡ false) (λ k. (word.now ≡ letters k) × (is_letters word.now ≡ true)) }
{
    if word.is_empty() {
        return None;
    }
    let (read, rest) = strip(word, b'R');
    let (insert, rest) = strip(rest, b'I');
    let (update, rest) = strip(rest, b'U');
    let (delete, rest) = strip(rest, b'D');
    if !rest.is_empty() {
        return None;
    }
    Some(Kinds {
        read,
        insert,
        update,
        delete,
    })
}

/// The access that a word spells.
#[cold]
#[inline(never)]
pub fn access_of<'a>(word: &'a [u8]) -> Result<RawAccess<'a>, LineFault>
    ensures ok { IfOk result (λ a. (word.now ≡ access_word a) × IsAccess a) }
    ensures fits { OnOk result (access_fault word.now ≡ None) }
    ensures fault { IfErr result (λ f. access_fault word.now ≡ Some f) }
{
    let (table, others) = cut(word);
    let (row, letters) = cut(others);
    if !has_name_form(table) {
        return Err(LineFault::BadName);
    }
    let Some(row) = plain_value(row) else {
        return Err(LineFault::BadNumber);
    };
    let Some(kinds) = kinds_of(letters) else {
        return Err(LineFault::UnknownWord);
    };
    let table = Name::of(table);
    Ok(RawAccess { table, row, kinds })
}
