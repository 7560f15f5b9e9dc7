//! The tables of a statement's needs and of its deed.

ghost use Rattle.std.specs.Prelude.{◌≡◌, ◌+◌, ◌≤◌, [], ◌++◌, length, map, vec_len, OnOk};
ghost use Rattle.std.specs.List.{flat_map};
ghost use Rattle.model_base.specs.Outcomes.{needs_of_access};
ghost use Rattle.model_base.specs.References.{deed_tables, tables_of};
ghost use Rattle.model_base.specs.Versions.{accesses_of};
ghost use Rattle.model_base.specs.declared.deed.Need.{Need};
ghost use Rattle.placing.specs.Tables.{has_need, with_number, with_numbers};

use model_base::{Access, Statement, Table};
use std::alloc::AllocError;

/// Appends a table to the others, if it isn't there.
fn add_table(tables: &mut Vec<Table>, table: Table) -> Result<(), AllocError>
    ensures tables { OnOk result (tables.new.items ≡ with_number tables.old.items table) }
    ensures count { OnOk result (vec_len tables.new ≤ vec_len tables.old + 1) }
{
    if !tables.contains(&table) {
        tables.push(table)?;
    }
    Ok(())
}

/// Whether the access needs anything.
pub fn has_need(access: &Access) -> bool
    ensures { result ≡ has_need access.now }
{
    access.kinds.read || access.kinds.insert || access.kinds.update || access.kinds.delete
}

/// Appends the tables of the accesses' needs to the others, each that isn't there.
fn add_needs(tables: &mut Vec<Table>, accesses: &[Access]) -> Result<(), AllocError>
    ensures tables { OnOk result (tables.new.items
        ≡ with_numbers tables.old.items (map (λ (need : Need). need.table) (flat_map needs_of_access accesses.now))) }
    ensures count { OnOk result (vec_len tables.new ≤ vec_len tables.old + length accesses.now) }
{
    for access in accesses {
        if has_need(access) {
            add_table(tables, access.key.table)?;
        }
    }
    Ok(())
}

/// Writes the tables of a statement's needs and of its deed into an empty list, each once, in the order in which they first appear. On
/// `Err`, out of memory, and some may be in it.
pub fn find_tables(tables: &mut Vec<Table>, statement: &Statement) -> Result<(), AllocError>
    requires { tables.old.items ≡ [] }
    ensures tables { OnOk result (tables.new.items ≡ tables_of statement.now.form) }
    ensures count { OnOk result (vec_len tables.new ≤ length (accesses_of statement.now.form) + 1) }
{
    add_needs(tables, statement.accesses())?;
    if let Some(table) = statement.deed_table() {
        add_table(tables, table)?;
    }
    Ok(())
}
