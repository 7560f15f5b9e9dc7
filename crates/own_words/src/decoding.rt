//! An outcome, and the row of a version cell, from their words.

ghost use Rattle.std.specs.Prelude.{◌≡◌, ◌≤◌, ◌-◌, drop, length, map, slice_get, slice_index, take};
ghost use Rattle.std.specs.List.{flat_map};
ghost use Rattle.model_base.specs.Outcomes.{kind_if, kinds_in, need_of, needs, needs_of_access, needs_of_deed};
ghost use Rattle.own_words.specs.Words.{aborted_from, cause_from, deed_form, deed_told, deeds_told, denied_from, done_from, numbers_from, outcome_from, row_of, signed};

use crate::bits::value_of;
use crate::coding::{ABORTED, CREATED, DENIED, DONE};
use crate::numbering::need_at;
use model_base::{
    Cause, Deed, DeedDone, DeedForm, Deeds, Form, Items, MOST_COLUMNS, MOST_OUTPUTS, MOST_VALUES,
    Outcome, Reason, RecordName, Row, User, Values,
};

/// The word of an index, or 0 past the last.
pub fn word_at(words: &[u64], index: usize) -> u64
    ensures { result ≡ slice_index words.now index }
{
    if index < words.len() { words[index] } else { 0 }
}

/// The words after the first few.
pub fn words_after(words: &[u64], first: usize) -> &[u64]
    ensures { result.now ≡ drop first words.now }
{
    if first <= words.len() {
        &words[first..]
    } else {
        &[]
    }
}

/// This many of the words, or all if there are fewer.
fn front(words: &[u64], count: usize) -> &[u64]
    ensures { result.now ≡ take count words.now }
{
    if count <= words.len() {
        &words[..count]
    } else {
        words
    }
}

/// This many whole numbers, from the words after the first few.
fn numbers_from(first: usize, count: usize, words: &[u64]) -> Values
    requires { count ≤ MOST_VALUES }
    ensures { result ≡ numbers_from first count words.now }
{
    let mut numbers = Values::new();
    let words = front(words_after(words, first), count);
    for word in words {
        numbers.push(value_of(*word));
    }
    numbers
}

/// The row of a version cell of a table with this many columns, of which a first word 0 says that it is absent. Words that are missing give
/// no numbers. It doesn't allocate.
pub fn row_of(columns: u8, words: &[u64]) -> Option<Row>
    requires { columns ≤ MOST_COLUMNS }
    ensures { result ≡ row_of columns words.now }
{
    if word_at(words, 0) == 0 {
        None
    } else {
        Some(numbers_from(1, columns as usize, words))
    }
}

/// What the deeds of a place result in, by the first of them and the records that its revocation ended.
fn deeds_told(ended: Items<RecordName>, mut deeds: Deeds<'_>) -> DeedDone
    ensures { result ≡ deeds_told ended deeds.entry }
{
    match deeds.next() {
        None => DeedDone::None,
        Some(Deed::Granting(_)) => DeedDone::Granted,
        Some(Deed::Revoking(_)) => DeedDone::Revoked(ended),
    }
}

/// What a deed results in; of which place and user its deeds are, it is the same.
fn deed_told(ended: Items<RecordName>, deed: Option<DeedForm>) -> DeedDone
    ensures { result ≡ deed_told ended deed }
{
    match deed {
        None => DeedDone::None,
        Some(form) => deeds_told(ended, form.deeds_at(0, User(0))),
    }
}

/// The deed of a statement, as it names it.
fn deed_form(form: &Form) -> Option<DeedForm>
    ensures { result ≡ deed_form form.now }
{
    match form {
        Form::Create { .. } => None,
        Form::Run { deed, .. } => *deed,
        Form::Deed(deed) => Some(*deed),
    }
}

/// A completed transaction.
fn done_from(form: &Form, words: &[u64], ended: Items<RecordName>) -> Outcome
    ensures { result ≡ done_from form.now words.now ended }
{
    let count = word_at(words, 3).min(MOST_OUTPUTS as u64);
    Outcome::Done {
        outputs: numbers_from(4, count as usize, words),
        deed: deed_told(ended, deed_form(form)),
    }
}

/// The cause of this word.
fn cause_from(word: u64) -> Cause
    ensures { result ≡ cause_from word }
{
    if word == 0 {
        Cause::Never
    } else {
        Cause::Taken(word - 1)
    }
}

/// A denial by the need of this number, if the statement has this many.
fn denied_from(form: &Form, number: u64, cause: Cause) -> Outcome
    ensures { result ≡ denied_from number cause (slice_get (needs form.now) number) }
{
    match need_at(form, number) {
        Some(need) => Outcome::Denied { need, cause },
        None => Outcome::Undeclared { step: number },
    }
}

/// A body that was aborted at this step, if the word is that of a reason.
fn aborted_from(step: u64, word: u64) -> Outcome
    ensures { result ≡ aborted_from step word }
{
    let reason = match word {
        0 => Reason::NoRow,
        1 => Reason::RowExists,
        2 => Reason::Overflow,
        3 => Reason::Check,
        _ => return Outcome::Undeclared { step },
    };
    Outcome::Aborted { step, reason }
}

/// The outcome that a place's words give; the records that its revocation ended are given, since the words don't have them. Words that are
/// missing read as 0. Where word 0 is none of the five, where a denial has a number that no need of the statement has, and where an
/// abortion has no reason, the outcome is undeclared at the step of word 1. Of more than `MOST_OUTPUTS` outputs this many are known. It
/// doesn't allocate.
pub fn decoded(form: &Form, words: &[u64], ended: Items<RecordName>) -> Outcome
    ensures { result ≡ outcome_from form.now words.now ended }
{
    let detail = word_at(words, 1);
    match word_at(words, 0) {
        DONE => done_from(form, words, ended),
        CREATED => Outcome::Created,
        DENIED => denied_from(form, detail, cause_from(word_at(words, 2))),
        ABORTED => aborted_from(detail, word_at(words, 2)),
        _ => Outcome::Undeclared { step: detail },
    }
}
