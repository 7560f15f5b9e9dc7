//! The accesses of a RUN.
ghost use Rattle.std.specs.Prelude.{◌≡◌, ◌∷◌, [], None, Some, ℕ, IfOk, IfErr, map};
ghost use Rattle.line_words.specs.Words.{first_word};
ghost use Rattle.line_words.specs.Access.{access_word, IsAccess};
ghost use Rattle.line_words.specs.Faults.{IsFault};
ghost use Rattle.log_text.specs.Fault.{OfAccess, OfNext, misfit, fault_from};
ghost use Rattle.log_text.specs.Parsing.{AreAccesses, TakesWords, fault_behind};

use line_words::{LineFault, Name, RawAccess, Words, access_of};
use model_base::MOST_ACCESSES;

/// The table of the first of these accesses, if there is one.
#[inline(always)]
fn near_table<'r, 'a>(accesses: &'r [RawAccess<'a>]) -> Option<&'r Name<'a>> {
    match accesses.first() {
        Some(access) => Some(&access.table),
        None => None,
    }
}

/// Takes the first access. The name of one table is compared first.
#[inline(always)]
fn access<'a>(words: &mut Words<'a>, near: Option<&Name<'a>>) -> Result<RawAccess<'a>, LineFault>
    ensures ok { IfOk result (λ a. (words.old ≡ access_word a ∷ words.new) × IsAccess a × (misfit OfAccess (access_word a) ≡ None)) }
    ensures fault { IfErr result (λ f. misfit OfAccess (first_word words.old) ≡ Some f) }
{
    if let Some(access) = words.next_access(near) {
        return Ok(access);
    }
    let Some(word) = words.next() else {
        return Err(LineFault::BadName);
    };
    access_of(word)
}

/// Takes the accesses, up to the first bar or the end. It says whether the bar follows. They go where room is, and after an error some of
/// them may be there. Most lines are on the table of the line before, and most accesses of a line on one table: that name is compared
/// first.
#[inline(always)]
pub(crate) fn accesses<'a>(
    words: &mut Words<'a>,
    found: &mut Vec<RawAccess<'a>>,
) -> Result<bool, LineFault>
    ensures ok { IfOk result (λ more. TakesWords words.old (map access_word found.new.items) more words.new × AreAccesses found.new) }
    ensures fits { IfOk result (λ more. (version : ℕ)
        → fault_from (OfAccess ∷ OfNext version 1 ∷ []) words.old ≡ fault_behind more version 0 0 words.new) }
    ensures fault { IfErr result (λ f. (version : ℕ) → IsFault f (fault_from (OfAccess ∷ OfNext version 1 ∷ []) words.old)) }
{
    let first = access(words, near_table(found))?;
    found.clear();
    found.reserve(MOST_ACCESSES)?;
    found.push_reserved(first);
    'accesses: loop {
        if words.next_bar() {
            return Ok(true);
        }
        if found.len() < MOST_ACCESSES {
            if let Some(access) = words.next_access(near_table(found)) {
                found.push_reserved(access);
                continue;
            }
        }
        let Some(word) = words.next() else {
            return Ok(false);
        };
        if word == b"|".as_slice() {
            return Ok(true);
        }
        if found.len() >= MOST_ACCESSES {
            return Err(LineFault::TooManyAccesses);
        }
        let access = access_of(word)?;
        found.push(access)?;
    }
}
