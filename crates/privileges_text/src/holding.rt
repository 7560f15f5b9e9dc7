//! The holders of a privilege, as text.

ghost use Rattle.std.specs.Prelude.{◌≡◌, ◌<◌, ◌++◌, ◌⊎◌, [], Err, IfErr, List, OnOk, None, false, length, ℕ};
ghost use Rattle.std.specs.List.{flat_map};
ghost use Rattle.line_io.specs.declared.fault.EngineFault.{EngineFault};
ghost use Rattle.model_base.specs.Outcomes.{deeds_before, owners};
ghost use Rattle.model_base.specs.Privileges.{holds};
ghost use Rattle.engine.specs.Engine.{finished};
ghost use Rattle.sequencer.specs.Names.{known_number};
ghost use Rattle.audit_text.specs.declared.fault.WorkFault.{WorkFault};
ghost use Rattle.privileges_text.specs.HoldersText.{ListsHolders, ListsHoldersOf, called_text, holder_lines, holder_text, option_text, public_line, with_option};

use crate::running::{book_of, owner_of, table_named};
use crate::ways::{UserNeed, put_ending};
use audit_text::{WorkFault, put_name};
use engine::Engine;
use grants::holds_option;
use model_base::{Kind, Need, User};
use privileges::{holders, is_given_to_all};
use std::alloc::{AllocError, Global};

/// Appends the name of a user, and whether the option is spoken of.
fn put_called(
    text: &mut Vec<u8>,
    engine: &Engine,
    user: User,
    option: bool,
) -> Result<(), AllocError>
    ensures { OnOk result (text.new.items ≡ text.old.items ++ called_text engine.now.log user option) }
{
    put_name(text, engine.log().catalog().users(), user.0 as usize)?;
    if !option {
        return Ok(());
    }
    text.extend_from_slice(b" option")
}

/// Appends the line of a user who holds what is needed at the end of the log.
fn put_holder(
    alloc: Global,
    text: &mut Vec<u8>,
    engine: &Engine,
    user: User,
    need: &Need,
) -> Result<(), AllocError>
    requires all { finished engine.now ≡ length engine.now.log.statements }
    requires covered { need.now.table < length engine.now.log.names.tables }
    ensures { OnOk result (text.new.items ≡ text.old.items ++ holder_text engine.now.log user need.now) }
{
    let place = engine.log().len();
    let of = UserNeed { user, need: *need };
    put_called(text, engine, user, need.option)?;
    put_ending(alloc, text, engine, place, &of)
}

/// Whether the user holds what is needed with the option at the end of the log.
fn is_with_option(engine: &Engine, user: User, need: &Need) -> bool
    requires all { finished engine.now ≡ length engine.now.log.statements }
    requires covered { need.now.table < length engine.now.log.names.tables }
    ensures { result ≡ holds (owners engine.now.log.statements)
        (deeds_before engine.now.log.statements (length engine.now.log.statements)) user (with_option need.now) }
{
    let mut view = book_of(engine).at(engine.log().len());
    holds_option(&mut view, user, need.kind, need.table)
}

/// Appends the line of a user with the option, where that is held.
fn put_option(
    alloc: Global,
    text: &mut Vec<u8>,
    engine: &Engine,
    user: User,
    need: &Need,
) -> Result<(), AllocError>
    requires all { finished engine.now ≡ length engine.now.log.statements }
    requires covered { need.now.table < length engine.now.log.names.tables }
    ensures { OnOk result (text.new.items ≡ text.old.items ++ option_text engine.now.log need.now user) }
{
    if !is_with_option(engine, user, need) {
        return Ok(());
    }
    let with_option = Need {
        table: need.table,
        kind: need.kind,
        option: true,
    };
    put_holder(alloc, text, engine, user, &with_option)
}

/// Appends the lines of the holders.
fn put_users(
    alloc: Global,
    text: &mut Vec<u8>,
    engine: &Engine,
    users: &[User],
    need: &Need,
) -> Result<(), AllocError>
    requires all { finished engine.now ≡ length engine.now.log.statements }
    requires covered { need.now.table < length engine.now.log.names.tables }
    ensures { OnOk result (text.new.items ≡ text.old.items ++ flat_map (holder_lines engine.now.log need.now) users.now) }
{
    for user in users {
        put_option(alloc, text, engine, *user, need)?;
        put_holder(alloc, text, engine, *user, need)?;
    }
    Ok(())
}

/// A user whom the log doesn't have.
fn nobody(engine: &Engine) -> User
    ensures { result ≡ length engine.now.log.names.users }
{
    User(engine.log().catalog().users().len() as u32)
}

/// Appends the line of PUBLIC, where a grant to it gives what is needed at the end of the log.
fn put_public(
    alloc: Global,
    text: &mut Vec<u8>,
    engine: &Engine,
    need: &Need,
) -> Result<(), AllocError>
    requires all { finished engine.now ≡ length engine.now.log.statements }
    requires covered { need.now.table < length engine.now.log.names.tables }
    ensures { OnOk result (text.new.items ≡ text.old.items ++ public_line engine.now.log need.now) }
{
    let place = engine.log().len();
    if !is_given_to_all(book_of(engine), place, need) {
        return Ok(());
    }
    let of = UserNeed {
        user: nobody(engine),
        need: *need,
    };
    text.extend_from_slice(b"PUBLIC")?;
    put_ending(alloc, text, engine, place, &of)
}

/// Writes the holders of a need at the end of the log into an empty text: the table's owner, the others by number, and PUBLIC.
fn put_holders_of(
    alloc: Global,
    text: &mut Vec<u8>,
    engine: &Engine,
    need: &Need,
) -> Result<(), AllocError>
    requires all { finished engine.now ≡ length engine.now.log.statements }
    requires covered { need.now.table < length engine.now.log.names.tables }
    requires empty { text.old.items ≡ [] }
    ensures { OnOk result (ListsHoldersOf engine.now.log need.now text.new.items) }
{
    let owner = owner_of(engine, need.table);
    let users = holders(alloc, book_of(engine), engine.log().len(), need)?;
    put_holder(alloc, text, engine, owner, need)?;
    put_users(alloc, text, engine, &users, need)?;
    put_public(alloc, text, engine, need)
}

/// Writes the holders of a kind on the table of a name, at the end of a log that is run, into an empty text.
pub fn put_holders(
    alloc: Global,
    text: &mut Vec<u8>,
    engine: &Engine,
    kind: Kind,
    name: &str,
) -> Result<(), WorkFault>
    requires all { finished engine.now ≡ length engine.now.log.statements }
    requires empty { text.old.items ≡ [] }
    ensures holders { OnOk result (ListsHolders engine.now.log kind name.now text.new.items) }
    ensures none { IfErr result (λ fault. (fault ≡ WorkFault.Run EngineFault.NoMemory)
        ⊎ ((fault ≡ WorkFault.NoSuchTable) × (known_number engine.now.log.names.tables name.now ≡ None))) }
    ensures lacking { known_number engine.now.log.names.tables name.now ≡ None → result ≡ Err WorkFault.NoSuchTable }
{
    let table = table_named(engine.log().catalog().tables(), name)?;
    let need = Need {
        table,
        kind,
        option: false,
    };
    put_holders_of(alloc, text, engine, &need)?;
    Ok(())
}
