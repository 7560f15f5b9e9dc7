//! The placer of one partition, which goes once through a batch.

ghost use Rattle.std.specs.Prelude.{◌≡◌, ◌<◌, ◌≤◌, ◌+◌, ◌-◌, ◌*◌, ◌^◌, ◌++◌, ℕ, List, Some, fold, length, map, slice_get, vec_len, IfOk, OnOk};
ghost use Rattle.model_base.specs.References.{tables_of};
ghost use Rattle.model_base.specs.Versions.{accesses_of};
ghost use Rattle.placing.specs.Latest.{IsLatest, Notes, own_prior, own_writer};
ghost use Rattle.placing.specs.Parts.{own_references, part_of, with_place, with_reference};

use crate::latest::Latest;
use crate::part::Part;
use crate::tables::find_tables;
use model_base::{Access, MOST_ACCESSES, Place, Statement, Table};
use sequencer::LogTail;
use std::alloc::{AllocError, Global};
use std::ops::Range;

/// Passes the references of the accesses, in order.
fn pass_accesses(latest: &Latest, part: &mut Part, accesses: &[Access]) -> Result<(), AllocError>
    requires { part.old.count + length accesses.now < 2 ^ 63 }
    ensures part { OnOk result (part.new ≡ fold with_reference part.old (map (own_writer latest.now) accesses.now)) }
    ensures count { OnOk result (part.new.count ≡ part.old.count + length accesses.now) }
{
    for access in accesses {
        part.pass(latest.writer(access))?;
    }
    Ok(())
}

/// Passes the references of the tables, in order.
fn pass_tables(latest: &Latest, part: &mut Part, tables: &[Table]) -> Result<(), AllocError>
    requires { part.old.count + length tables.now < 2 ^ 63 }
    ensures part { OnOk result (part.new ≡ fold with_reference part.old (map (own_prior latest.now) tables.now)) }
    ensures count { OnOk result (part.new.count ≡ part.old.count + length tables.now) }
{
    for table in tables {
        part.pass(latest.prior(*table))?;
    }
    Ok(())
}

/// Goes through the statement of the next place: finds what of the partition it is referred to, and then notes it as what
/// later places may be referred to. `tables` is cleared first, and serves as room for the statement's tables. On `Err`
/// memory ran out, and what was found is of no further use.
fn place_statement(
    latest: &mut Latest,
    part: &mut Part,
    tables: &mut Vec<Table>,
    statement: &Statement,
    place: Place,
) -> Result<(), AllocError>
    requires few { length (accesses_of statement.now.form) ≤ MOST_ACCESSES }
    requires room { part.old.count < 2 ^ 62 }
    ensures found { OnOk result (part.new
        ≡ with_place part.old (map (own_writer latest.old) (accesses_of statement.now.form)
        ++ map (own_prior latest.old) (tables_of statement.now.form))) }
    ensures count { OnOk result (part.new.count ≤ part.old.count + 33) }
    ensures notes { OnOk result (Notes latest.old latest.new statement.now place) }
{
    tables.clear();
    find_tables(tables, statement)?;
    pass_accesses(latest, part, statement.accesses())?;
    pass_tables(latest, part, tables)?;
    part.end_place()?;
    latest.note(statement, place)
}

/// What one partition's placer finds in the batch of these places: for each of them, in the order of the log, which earlier
/// place of the batch last may change each row of the partition that it accesses, and which last has a deed on each table
/// of the partition that is a table of its needs or of its deed. A place counts by what it declares, whatever will become
/// of it. The cost of a place is that of a look-up for each of its accesses and tables. `Err` says that memory ran out.
pub fn place(
    alloc: Global,
    log: &LogTail,
    range: Range<Place>,
    partition: usize,
    partitions: usize,
) -> Result<Part, AllocError>
    requires partitions { 0 < partitions }
    requires kept { log.now.dropped ≤ range.start }
    requires within { range.end ≤ length log.now.log.statements }
    ensures { IfOk result (λ part. part ≡ part_of partitions log.now.log.statements range.start (range.end - range.start) partition) }
{
    let mut latest = Latest::new(alloc, partition, partitions);
    let mut part = Part::new(alloc);
    let mut tables = Vec::new(alloc);
    let _len = log.len();
    for place in range.start..range.end {
        let statement = log.statement(place);
        place_statement(&mut latest, &mut part, &mut tables, statement, place)?;
    }
    Ok(part)
}
