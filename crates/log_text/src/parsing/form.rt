//! What a statement asks for.
ghost use Rattle.std.specs.Prelude.{◌≡◌, ◌≢◌, ◌∷◌, [], Some, ℕ, IfOk, IfErr, MatchBool, MatchOption, OnOk, codes, true};
ghost use Rattle.log_text.specs.Statement.{form_words, IsFormInGrammar, IsFormOf, IsLastDeedOf};
ghost use Rattle.log_text.specs.Versions.{version_number};
ghost use Rattle.line_words.specs.Faults.{IsFault};
ghost use Rattle.line_words.specs.Words.{first_word};
ghost use Rattle.log_text.specs.Fault.{OfName, OfPlain, OfForm, fault_from, is_deed};
ghost use Rattle.log_text.specs.LineBuffers.{run_of};

use super::accesses::accesses;
use super::deeds::{begins_deed, deed};
use super::fields::{end, name, number};
use super::steps::steps;
use crate::line_buffers::{LineBuffers, leave_none};
use crate::statement::RawForm;
use crate::version::Version;
use line_words::{LineFault, Words};

/// What is after CREATE.
fn create<'a>(words: &mut Words<'a>) -> Result<RawForm<'a>, LineFault>
    ensures ok { IfOk result (λ form. (codes "CREATE" ∷ words.old ≡ form_words form) × IsFormInGrammar form × ((version : ℕ)
        → IsFormOf version form)) }
    ensures fault { IfErr result (λ f. fault_from (OfName ∷ OfPlain ∷ []) words.old ≡ Some f) }
{
    let table = name(words)?;
    let columns = number(words)?;
    end(words)?;
    Ok(RawForm::Create { table, columns })
}

/// What is after RUN. It goes into the room.
#[inline(always)]
pub(crate) fn run<'a>(
    version: Version,
    words: &mut Words<'a>,
    room: &mut LineBuffers<'a>,
) -> Result<(), LineFault>
    ensures ok { OnOk result ((codes "RUN" ∷ words.old ≡ form_words (run_of room.new)) × IsFormInGrammar (run_of room.new)
        × IsLastDeedOf (version_number version) room.new.deed) }
    ensures fault { IfErr result (λ f. IsFault f (fault_from (OfForm (version_number version) ∷ []) (codes "RUN" ∷ words.old))) }
    ensures user { room.new.user ≡ room.old.user }
    ensures other { room.new.other ≡ room.old.other }
{
    leave_none(&mut room.deed);
    let more = accesses(words, &mut room.accesses)?;
    if !more {
        room.steps.clear();
        return Ok(());
    }
    let near = &room.accesses[room.accesses.len() - 1].table;
    steps(version, words, near, &mut room.steps, &mut room.deed)
}

/// Takes the word RUN, if it is the next word; otherwise the words stay as they are.
#[inline(always)]
pub(crate) fn takes_run(words: &mut Words<'_>) -> bool
    ensures { MatchBool result (words.old ≡ codes "RUN" ∷ words.new) ((words.new ≡ words.old) × (first_word words.old ≢ codes "RUN")) }
{
    if words.next_run() {
        return true;
    }
    let Some(word) = words.first() else {
        return false;
    };
    if word != b"RUN".as_slice() {
        return false;
    }
    words.next();
    true
}

/// Takes the word GRANT or REVOKE, if it is the next word and another follows; otherwise the words stay as they are. It doesn't look for
/// the word's end.
#[inline(always)]
fn next_deed_word(words: &mut Words<'_>) -> Option<&'static [u8]>
    ensures { MatchOption result (words.new ≡ words.old) (λ w. (words.old ≡ w.now ∷ words.new) × (is_deed w.now ≡ true)) }
{
    if words.next_is(b"GRANT") {
        return Some(b"GRANT");
    }
    if words.next_is(b"REVOKE") {
        return Some(b"REVOKE");
    }
    None
}

/// What is after the user, where it isn't a RUN.
#[inline(never)]
pub(crate) fn other_form<'a>(
    version: Version,
    words: &mut Words<'a>,
) -> Result<RawForm<'a>, LineFault>
    requires { first_word words.old ≢ codes "RUN" }
    ensures ok { IfOk result (λ form. (words.old ≡ form_words form) × IsFormInGrammar form × IsFormOf (version_number version) form) }
    ensures fault { IfErr result (λ f. fault_from (OfForm (version_number version) ∷ []) words.old ≡ Some f) }
{
    if let Some(word) = next_deed_word(words) {
        return Ok(RawForm::Deed(deed(version, word, words)?));
    }
    let Some(word) = words.next() else {
        return Err(LineFault::UnknownWord);
    };
    if word == b"CREATE".as_slice() {
        let form = create(words)?;
        return Ok(form);
    }
    if begins_deed(word) {
        return Ok(RawForm::Deed(deed(version, word, words)?));
    }
    Err(LineFault::UnknownWord)
}
