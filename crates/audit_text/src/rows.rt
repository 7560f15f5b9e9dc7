//! The rows that are there at the end of a log that is run, as text.

ghost use Rattle.std.specs.Prelude.{◌≡◌, ◌++◌, ◌⊎◌, [], Err, IfErr, IfOk, OnOk, length, option_map};
ghost use Rattle.line_io.specs.declared.fault.EngineFault.{EngineFault};
ghost use Rattle.engine.specs.Engine.{finished};
ghost use Rattle.audit_text.specs.RowsText.{HasNoTable, IsTableNamed, ListsRows, is_of_table, key_text, row_text, rows_text};
ghost use Rattle.audit_text.specs.declared.fault.WorkFault.{WorkFault};

use crate::fault::WorkFault;
use crate::graph::{put_name, put_place};
use chains::RowThere;
use engine::Engine;
use model_base::{Key, Table};
use report::put_numbers;
use sequencer::NameTable;
use std::alloc::{AllocError, Global};

/// Writes the key of a row.
fn put_key(text: &mut Vec<u8>, tables: &NameTable, key: Key) -> Result<(), AllocError>
    ensures { OnOk result (text.new.items ≡ text.old.items ++ key_text tables.now key) }
{
    put_name(text, tables, key.table.0 as usize)?;
    text.extend_from_slice(b":")?;
    put_place(text, u64::from(key.row))
}

/// Writes the line of a row.
fn put_row(text: &mut Vec<u8>, tables: &NameTable, row: &RowThere) -> Result<(), AllocError>
    ensures { OnOk result (text.new.items ≡ text.old.items ++ row_text tables.now row.now) }
{
    put_key(text, tables, row.key)?;
    put_numbers(text, row.values.as_slice())?;
    text.extend_from_slice(b"\n")
}

/// Whether the row is of the table, if one is asked for.
fn is_of_table(table: &Option<Table>, row: &RowThere) -> bool
    ensures { result ≡ is_of_table table.now row.now }
{
    match table {
        None => true,
        Some(number) => row.key.table == *number,
    }
}

/// Writes the lines of the rows of a table, or of all.
fn put_rows(
    text: &mut Vec<u8>,
    tables: &NameTable,
    table: &Option<Table>,
    rows: &[RowThere],
) -> Result<(), AllocError>
    ensures { OnOk result (text.new.items ≡ text.old.items ++ rows_text tables.now table.now rows.now) }
{
    for row in rows {
        if is_of_table(table, row) {
            put_row(text, tables, row)?;
        }
    }
    Ok(())
}

/// The table of a name, if one is asked for. An error where no table has the name.
fn table_named(tables: &NameTable, name: Option<&str>) -> Result<Option<Table>, WorkFault>
    ensures named { IfOk result (λ table. IsTableNamed tables.now (option_map (λ name. name.now) name.entry) table) }
    ensures there { OnOk result (HasNoTable tables.now (option_map (λ name. name.now) name.entry) → ⊥) }
    ensures none { IfErr result (λ fault. (fault ≡ WorkFault.NoSuchTable)
        × HasNoTable tables.now (option_map (λ name. name.now) name.entry)) }
{
    let Some(name) = name else {
        return Ok(None);
    };
    match tables.find(name) {
        Some(number) => Ok(Some(Table(number))),
        None => Err(WorkFault::NoSuchTable),
    }
}

/// Writes the rows that are there at the end of a log that is run into an empty text: those of the table of a name, or of all.
pub fn put_rows_there(
    alloc: Global,
    text: &mut Vec<u8>,
    engine: &Engine,
    name: Option<&str>,
) -> Result<(), WorkFault>
    requires all { finished engine.now ≡ length engine.now.log.statements }
    requires empty { text.old.items ≡ [] }
    ensures rows { OnOk result (ListsRows engine.now.log (option_map (λ name. name.now) name.entry) text.new.items) }
    ensures none { IfErr result (λ fault. (fault ≡ WorkFault.Run EngineFault.NoMemory)
        ⊎ ((fault ≡ WorkFault.NoSuchTable) × HasNoTable engine.now.log.names.tables (option_map (λ name. name.now) name.entry))) }
    ensures lacking { HasNoTable engine.now.log.names.tables (option_map (λ name. name.now) name.entry)
        → result ≡ Err WorkFault.NoSuchTable }
{
    let tables = engine.log().catalog().tables();
    let table = table_named(tables, name)?;
    let rows = engine.rows_there(alloc)?;
    put_rows(text, tables, &table, &rows)?;
    Ok(())
}
