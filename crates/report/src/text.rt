//! How the report spells what becomes of a line.

ghost use Rattle.std.specs.Prelude.{◌≡◌, ◌<◌, ◌≤◌, ◌∷◌, ◌++◌, List, Some, length, codes, OnErr, OnOk, vec_capacity};
ghost use Rattle.std.specs.Fmt.{decimal, signed_decimal};
ghost use Rattle.model_base.specs.Ranks.{place_of_rank};
ghost use Rattle.model_base.specs.RecordNames.{kind_of_rank};
ghost use Rattle.model_base.specs.declared.statement.Statement.{Statement};
ghost use Rattle.log_text.specs.Statement.{kind_word};
ghost use Rattle.report.specs.Text.{HaveGrantees, IsNamed, LacksRoom, cause_text, deed_text, done_text, ending_text, fault_word, grantee_name, need_text, numbers_text, outcome_text, reason_word, records_listed, records_revoked, records_text, refused_text, refused_word, spelled_record};
ghost use Rattle.report.specs.Records.{places_text, spelled_records};

use itoa::Buffer;
use log_text::{LineFault, Version, kind_word};
use model_base::{Cause, DeedDone, Form, Grantee, Need, Outcome, Place, Reason, RecordName};
use sequencer::{Catalog, NameTable, Refused};
use std::alloc::AllocError;

/// The word of a line's fault. Out of memory is no line's fault, and has none.
fn fault_word(fault: LineFault) -> &'static str
    ensures { result.now ≡ fault_word fault }
{
    match fault {
        LineFault::TooLong => "too-long",
        LineFault::NotAscii => "not-ascii",
        LineFault::Empty => "empty",
        LineFault::UnknownWord => "unknown-word",
        LineFault::BadNumber => "bad-number",
        LineFault::BadName => "bad-name",
        LineFault::TooManySteps => "too-many-steps",
        LineFault::TooManyAccesses => "too-many-accesses",
        LineFault::BadRegister => "bad-register",
        LineFault::TooManyGrantees => "too-many-grantees",
        LineFault::DuplicateGrantee => "duplicate-grantee",
        LineFault::NoMemory => "",
    }
}

/// The word of the log's refusal. Out of memory has none.
fn refused_word(refused: Refused) -> &'static str
    ensures { result.now ≡ refused_word refused }
{
    match refused {
        Refused::UnknownTable => "unknown-table",
        Refused::TableExists => "table-exists",
        Refused::BadColumns => "bad-columns",
        Refused::DuplicateAccess => "duplicate-access",
        Refused::BadColumnNumber => "bad-column-number",
        Refused::SkipPastEnd => "skip-past-end",
        Refused::LogFull => "log-full",
        Refused::TooManyNames => "too-many-names",
        Refused::NoMemory => "",
    }
}

/// The word of the reason for which a body was aborted.
fn reason_word(reason: Reason) -> &'static str
    ensures { result.now ≡ reason_word reason }
{
    match reason {
        Reason::NoRow => "no-row",
        Reason::RowExists => "row-exists",
        Reason::Overflow => "overflow",
        Reason::Check => "check",
    }
}

/// Appends a place, a step or a line's number to the text.
#[inline(always)]
fn put_decimal(text: &mut Vec<u8>, number: u64) -> Result<(), AllocError>
    ensures ok { OnOk result (text.new.items ≡ text.old.items ++ decimal number) }
    ensures capacity { vec_capacity text.old ≤ vec_capacity text.new }
    ensures full { OnErr result (LacksRoom text.old (decimal number)) }
{
    let mut buffer = Buffer::new();
    text.extend_from_slice(buffer.format(number).as_bytes())
}

/// Appends an output to the text.
#[inline(always)]
fn put_signed(text: &mut Vec<u8>, number: i64) -> Result<(), AllocError>
    ensures { OnOk result (text.new.items ≡ text.old.items ++ signed_decimal number) }
{
    let mut buffer = Buffer::new();
    text.extend_from_slice(buffer.format(number).as_bytes())
}

/// Appends each number after a space. After an error some of them may be appended.
#[inline(always)]
pub fn put_numbers(text: &mut Vec<u8>, numbers: &[i64]) -> Result<(), AllocError>
    ensures { OnOk result (text.new.items ≡ text.old.items ++ numbers_text numbers.now) }
{
    for number in numbers {
        text.extend_from_slice(b" ")?;
        put_signed(text, *number)?;
    }
    Ok(())
}

/// Appends the place of each record after a space.
fn put_places(text: &mut Vec<u8>, names: &[RecordName]) -> Result<(), AllocError>
    ensures { OnOk result (text.new.items ≡ text.old.items ++ places_text names.now) }
{
    for name in names {
        text.extend_from_slice(b" ")?;
        put_decimal(text, name.place)?;
    }
    Ok(())
}

/// Appends the name of a grantee, or nothing for a user who has none.
fn put_grantee(text: &mut Vec<u8>, users: &NameTable, grantee: &Grantee) -> Result<(), AllocError>
    ensures { OnOk result (text.new.items ≡ text.old.items ++ grantee_name users.now (Some grantee.now)) }
{
    match grantee {
        Grantee::Public => text.extend_from_slice(b"PUBLIC"),
        Grantee::User(user) => match users.get(user.0) {
            Some(name) => text.extend_from_slice(name.as_bytes()),
            None => Ok(()),
        },
    }
}

/// Appends the place and the kind of a record after a space.
fn put_place_and_kind(text: &mut Vec<u8>, name: RecordName) -> Result<(), AllocError>
    ensures { OnOk result (text.new.items
        ≡ text.old.items ++ (32 ∷ (decimal (place_of_rank name) ++ codes ":" ++ kind_word (kind_of_rank name)))) }
{
    text.extend_from_slice(b" ")?;
    put_decimal(text, name.place)?;
    text.extend_from_slice(b":")?;
    text.extend_from_slice(kind_word(name.kind).as_bytes())
}

/// Appends a record with its grantee after a space.
fn put_record(
    text: &mut Vec<u8>,
    users: &NameTable,
    name: RecordName,
    grantee: &Grantee,
) -> Result<(), AllocError>
    ensures { OnOk result (text.new.items ≡ text.old.items ++ (32 ∷ spelled_record users.now name (Some grantee.now))) }
{
    put_place_and_kind(text, name)?;
    text.extend_from_slice(b":")?;
    put_grantee(text, users, grantee)
}

/// Appends each record with its grantee after a space, as long as there are both.
fn put_spelled(
    text: &mut Vec<u8>,
    users: &NameTable,
    names: &[RecordName],
    grantees: &[Grantee],
) -> Result<(), AllocError>
    ensures { OnOk result (text.new.items ≡ text.old.items ++ spelled_records users.now names.now grantees.now) }
{
    for (index, name) in names.iter().enumerate() {
        let Some(grantee) = grantees.get(index) else {
            return Ok(());
        };
        put_record(text, users, *name, grantee)?;
    }
    Ok(())
}

/// Appends each record after a space, in version 2 with its kind and its grantee. In version 1 no grantees are wanted. After an error
/// some of the records may be appended.
pub fn put_records(
    text: &mut Vec<u8>,
    catalog: &Catalog,
    names: &[RecordName],
    grantees: &[Grantee],
) -> Result<(), AllocError>
    ensures { OnOk result ((log : List Statement) → HaveGrantees catalog.now.version log names.now grantees.now
        → text.new.items ≡ text.old.items ++ records_text log catalog.now names.now) }
{
    match catalog.version() {
        Version::One => put_places(text, names),
        Version::Two => put_spelled(text, catalog.users(), names, grantees),
    }
}

/// The records that an outcome lists.
pub fn records_of(outcome: &Outcome) -> &[RecordName]
    ensures { result.now ≡ records_listed outcome.now }
{
    match outcome {
        Outcome::Done {
            deed: DeedDone::Revoked(names),
            ..
        } => names.as_slice(),
        Outcome::Created
        | Outcome::Done { .. }
        | Outcome::Denied { .. }
        | Outcome::Aborted { .. }
        | Outcome::Undeclared { .. } => &[],
    }
}

/// Writes what the deed of a transaction resulted in.
#[inline(always)]
fn put_deed(
    text: &mut Vec<u8>,
    catalog: &Catalog,
    deed: &DeedDone,
    grantees: &[Grantee],
) -> Result<(), AllocError>
    ensures { OnOk result ((log : List Statement) → HaveGrantees catalog.now.version log (records_revoked deed.now) grantees.now
        → text.new.items ≡ text.old.items ++ deed_text log catalog.now deed.now) }
{
    match deed {
        DeedDone::None => Ok(()),
        DeedDone::Granted => text.extend_from_slice(b" granted"),
        DeedDone::Revoked(names) => {
            text.extend_from_slice(b" revoked")?;
            put_records(text, catalog, names.as_slice(), grantees)
        }
    }
}

/// Writes the outputs and the deed of a transaction that is done. A deed by itself has no outputs.
#[inline(always)]
fn put_done(
    text: &mut Vec<u8>,
    catalog: &Catalog,
    form: &Form,
    outputs: &[i64],
    deed: &DeedDone,
    grantees: &[Grantee],
) -> Result<(), AllocError>
    ensures { OnOk result ((log : List Statement) → HaveGrantees catalog.now.version log (records_revoked deed.now) grantees.now
        → text.new.items ≡ text.old.items ++ done_text log catalog.now form.now outputs.now deed.now) }
{
    if let Form::Deed(_) = form {
        return put_deed(text, catalog, deed, grantees);
    }
    text.extend_from_slice(b" done")?;
    put_numbers(text, outputs)?;
    put_deed(text, catalog, deed, grantees)
}

/// Appends a need: its kind and table, and whether it is with the option. After an error a part of it may be appended.
pub fn put_need(text: &mut Vec<u8>, tables: &NameTable, need: &Need) -> Result<(), AllocError>
    requires { need.now.table < length tables.now }
    ensures { OnOk result (text.new.items ≡ text.old.items ++ need_text tables.now need.now) }
{
    text.extend_from_slice(kind_word(need.kind).as_bytes())?;
    text.extend_from_slice(b" ")?;
    text.extend_from_slice(tables.name(need.table.0).as_bytes())?;
    if need.option {
        text.extend_from_slice(b" option")?;
    }
    Ok(())
}

/// Appends why a need isn't held. After an error a part of it may be appended.
pub fn put_cause(text: &mut Vec<u8>, cause: Cause) -> Result<(), AllocError>
    ensures { OnOk result (text.new.items ≡ text.old.items ++ cause_text cause) }
{
    match cause {
        Cause::Never => text.extend_from_slice(b" never"),
        Cause::Taken(place) => {
            text.extend_from_slice(b" taken ")?;
            put_decimal(text, place)
        }
    }
}

/// Writes at which step a body was aborted, and why.
#[cold]
#[inline(never)]
fn put_aborted(text: &mut Vec<u8>, step: u64, reason: Reason) -> Result<(), AllocError>
    ensures { OnOk result (text.new.items ≡ text.old.items ++ (codes " aborted " ++ decimal step ++ codes " " ++ reason_word reason)) }
{
    text.extend_from_slice(b" aborted ")?;
    put_decimal(text, step)?;
    text.extend_from_slice(b" ")?;
    text.extend_from_slice(reason_word(reason).as_bytes())
}

/// Writes which need a user misses, and why.
#[cold]
#[inline(never)]
fn put_denied(
    text: &mut Vec<u8>,
    tables: &NameTable,
    need: &Need,
    cause: Cause,
) -> Result<(), AllocError>
    requires { need.now.table < length tables.now }
    ensures { OnOk result (text.new.items ≡ text.old.items ++ (codes " denied " ++ need_text tables.now need.now ++ cause_text cause)) }
{
    text.extend_from_slice(b" denied ")?;
    put_need(text, tables, need)?;
    put_cause(text, cause)
}

/// Writes what comes after a place.
#[inline(always)]
fn put_ending(
    text: &mut Vec<u8>,
    catalog: &Catalog,
    form: &Form,
    outcome: &Outcome,
    grantees: &[Grantee],
) -> Result<(), AllocError>
    requires { IsNamed (length catalog.now.tables) outcome.now }
    ensures { OnOk result ((log : List Statement) → HaveGrantees catalog.now.version log (records_listed outcome.now) grantees.now
        → text.new.items ≡ text.old.items ++ ending_text log catalog.now form.now outcome.now) }
{
    match outcome {
        Outcome::Created => text.extend_from_slice(b" created"),
        Outcome::Done { outputs, deed } => {
            put_done(text, catalog, form, outputs.as_slice(), deed, grantees)
        }
        Outcome::Denied { need, cause } => put_denied(text, catalog.tables(), need, *cause),
        Outcome::Aborted { step, reason } => put_aborted(text, *step, *reason),
        Outcome::Undeclared { step } => {
            text.extend_from_slice(b" undeclared ")?;
            put_decimal(text, *step)
        }
    }
}

/// Writes the report's line for a place, by the grantees of the records that the outcome lists. In version 1 no grantees are wanted.
#[inline(always)]
pub fn put_outcome(
    text: &mut Vec<u8>,
    catalog: &Catalog,
    place: Place,
    form: &Form,
    outcome: &Outcome,
    grantees: &[Grantee],
) -> Result<(), AllocError>
    requires { IsNamed (length catalog.now.tables) outcome.now }
    ensures { OnOk result ((log : List Statement) → HaveGrantees catalog.now.version log (records_listed outcome.now) grantees.now
        → text.new.items ≡ text.old.items ++ outcome_text log catalog.now place form.now outcome.now) }
{
    put_decimal(text, place)?;
    put_ending(text, catalog, form, outcome, grantees)?;
    text.extend_from_slice(b"\n")
}

/// Writes the report's line for a line that isn't accepted.
#[cold]
#[inline(never)]
fn put_word(text: &mut Vec<u8>, number: u64, word: &str) -> Result<(), AllocError>
    ensures ok { OnOk result (text.new.items ≡ text.old.items ++ refused_text number word.now) }
    ensures full { OnErr result (LacksRoom text.old (refused_text number word.now)) }
{
    text.extend_from_slice(b"line ")?;
    put_decimal(text, number)?;
    text.extend_from_slice(b" refused ")?;
    text.extend_from_slice(word.as_bytes())?;
    text.extend_from_slice(b"\n")
}

/// Writes the report's line for a line that has a fault. It is refused memory only where the text has no room for the line.
pub fn put_fault(text: &mut Vec<u8>, number: u64, fault: LineFault) -> Result<(), AllocError>
    ensures ok { OnOk result (text.new.items ≡ text.old.items ++ refused_text number (fault_word fault)) }
    ensures full { OnErr result (LacksRoom text.old (refused_text number (fault_word fault))) }
{
    put_word(text, number, fault_word(fault))
}

/// Writes the report's line for a statement that the log refuses. It is refused memory only where the text has no room for the line.
pub fn put_refused(text: &mut Vec<u8>, number: u64, refused: Refused) -> Result<(), AllocError>
    ensures ok { OnOk result (text.new.items ≡ text.old.items ++ refused_text number (refused_word refused)) }
    ensures full { OnErr result (LacksRoom text.old (refused_text number (refused_word refused))) }
{
    put_word(text, number, refused_word(refused))
}
