//! The names and the book of a log that is run to its end.

ghost use Rattle.std.specs.Prelude.{◌≡◌, ◌<◌, ◌≤◌, All, IfErr, IfOk, None, Some, length, slice_get};
ghost use Rattle.model_base.specs.Outcomes.{deeds_before, owners};
ghost use Rattle.model_base.specs.declared.deed.Record.{Record};
ghost use Rattle.grants_base.specs.Book.{ShowsBook};
ghost use Rattle.engine.specs.Engine.{finished};
ghost use Rattle.sequencer.specs.Names.{known_number};

use audit_text::WorkFault;
use engine::Engine;
use grants::Book;
use model_base::{Table, User};
use sequencer::NameTable;

/// The book of a log that is run to its end.
pub(crate) fn book_of(engine: &Engine) -> &Book
    requires all { finished engine.now ≡ length engine.now.log.statements }
    ensures value { result.now ≡ engine.now.book }
    ensures shows { ShowsBook engine.now.book (owners engine.now.log.statements)
        (deeds_before engine.now.log.statements (length engine.now.log.statements)) }
    ensures tables { length engine.now.book.tables ≡ length engine.now.log.names.tables }
    ensures below { All (λ (entry : Record). entry.grant.place < length engine.now.log.statements) engine.now.book.records }
{
    let _finished = engine.finished();
    let _dropped = engine.log().dropped();
    engine.book()
}

/// The user who created a table of the log.
pub(crate) fn owner_of(engine: &Engine, table: Table) -> User
    requires covered { table < length engine.now.log.names.tables }
    ensures { slice_get (owners engine.now.log.statements) table ≡ Some result }
{
    let _dropped = engine.log().dropped();
    engine.log().owner(table)
}

/// The table of a name. An error where no table has it.
pub(crate) fn table_named(tables: &NameTable, name: &str) -> Result<Table, WorkFault>
    ensures named { IfOk result (λ table. known_number tables.now name.now ≡ Some table) }
    ensures within { IfOk result (λ table. table < length tables.now) }
    ensures none { IfErr result (λ fault. (fault ≡ WorkFault.NoSuchTable) × (known_number tables.now name.now ≡ None)) }
{
    match tables.find(name) {
        Some(number) => Ok(Table(number)),
        None => Err(WorkFault::NoSuchTable),
    }
}

/// The user of a name. An error where no user has it.
pub(crate) fn user_named(users: &NameTable, name: &str) -> Result<User, WorkFault>
    ensures named { IfOk result (λ user. known_number users.now name.now ≡ Some user) }
    ensures none { IfErr result (λ fault. (fault ≡ WorkFault.NoSuchUser) × (known_number users.now name.now ≡ None)) }
{
    match users.find(name) {
        Some(number) => Ok(User(number)),
        None => Err(WorkFault::NoSuchUser),
    }
}
