//! The grants in force at a place, as a digraph of Graphviz.

ghost use Rattle.std.specs.Prelude.{◌≡◌, ◌++◌, [], OnOk, codes, if◌then◌else◌};
ghost use Rattle.std.specs.Fmt.{decimal};
ghost use Rattle.std.specs.List.{flat_map, list_any};
ghost use Rattle.report.specs.Text.{table_name};
ghost use Rattle.audit_text.specs.Drawn.{drawn, fell_at, tables_drawn};
ghost use Rattle.audit_text.specs.Graph.{box_text, edge_text, edge_ending_text, fallen_text, grantee_text, edges_text, graph_text, is_drawn_to_public, label_text, owner_text, public_text, user_text};
ghost use Rattle.model_base.specs.Records.{is_in_force_at};

use grants::{Book, Creation};
use itoa::Buffer;
use log_text::kind_word;
use model_base::{Cause, Grant, Grantee, Place, Record, User};
use report::put_cause;
use sequencer::{Catalog, NameTable};
use std::alloc::AllocError;

/// Writes the name of this number; nothing where there is none.
pub fn put_name(text: &mut Vec<u8>, names: &NameTable, number: usize) -> Result<(), AllocError>
    ensures { OnOk result (text.new.items ≡ text.old.items ++ table_name names.now number) }
{
    if number >= names.len() {
        return Ok(());
    }
    text.extend_from_slice(names.name(number as u32).as_bytes())
}

/// Writes a user as a node.
fn put_user(text: &mut Vec<u8>, users: &NameTable, user: User) -> Result<(), AllocError>
    ensures { OnOk result (text.new.items ≡ text.old.items ++ user_text users.now user) }
{
    text.extend_from_slice(b"\"")?;
    put_name(text, users, user.0 as usize)?;
    text.extend_from_slice(b"\"")
}

/// Writes a user as a box.
fn put_box(text: &mut Vec<u8>, users: &NameTable, user: User) -> Result<(), AllocError>
    ensures { OnOk result (text.new.items ≡ text.old.items ++ box_text users.now user) }
{
    text.extend_from_slice(b"  ")?;
    put_user(text, users, user)?;
    text.extend_from_slice(b" [shape=box];")
}

/// Writes the line of the table of this number: its owner as a box.
fn put_owner(
    text: &mut Vec<u8>,
    names: &Catalog,
    table: usize,
    creation: &Creation,
) -> Result<(), AllocError>
    ensures { OnOk result (text.new.items ≡ text.old.items ++ owner_text names.now.users names.now.tables (table, creation.now)) }
{
    put_box(text, names.users(), creation.owner)?;
    text.extend_from_slice(b" // owns ")?;
    put_name(text, names.tables(), table)?;
    text.extend_from_slice(b"\n")
}

/// Writes the lines of the tables that were created below the place.
fn put_tables(
    text: &mut Vec<u8>,
    names: &Catalog,
    place: Place,
    tables: &[Creation],
) -> Result<(), AllocError>
    ensures { OnOk result (text.new.items ≡ text.old.items
        ++ flat_map (owner_text names.now.users names.now.tables) (tables_drawn place tables.now)) }
{
    for (table, creation) in tables.iter().enumerate() {
        if creation.place < place {
            put_owner(text, names, table, creation)?;
        }
    }
    Ok(())
}

/// Writes a place, or another number.
pub fn put_place(text: &mut Vec<u8>, place: Place) -> Result<(), AllocError>
    ensures { OnOk result (text.new.items ≡ text.old.items ++ decimal place) }
{
    let mut buffer = Buffer::new();
    text.extend_from_slice(buffer.format(place).as_bytes())
}

/// Writes that a grant is with the option.
fn put_option(text: &mut Vec<u8>, option: bool) -> Result<(), AllocError>
    ensures { OnOk result (text.new.items ≡ text.old.items ++ (if option then codes " option" else [])) }
{
    if option {
        text.extend_from_slice(b" option")
    } else {
        Ok(())
    }
}

/// Writes the label of a grant: its place, its kind, its table, and whether it is with the option.
fn put_label(text: &mut Vec<u8>, tables: &NameTable, grant: &Grant) -> Result<(), AllocError>
    ensures { OnOk result (text.new.items ≡ text.old.items ++ label_text tables.now grant.now) }
{
    put_place(text, grant.place)?;
    text.extend_from_slice(b" ")?;
    text.extend_from_slice(kind_word(grant.kind).as_bytes())?;
    text.extend_from_slice(b" ")?;
    put_name(text, tables, grant.table.0 as usize)?;
    put_option(text, grant.option)
}

/// Whether the grant fell at the place.
fn fell_at(place: Place, entry: &Record) -> bool
    ensures { result ≡ fell_at place entry.now }
{
    match entry.end {
        Some(end) => end == place,
        None => false,
    }
}

/// Writes how the edge of a grant ends that fell at the place: it is dashed, and says the place.
fn put_fallen(text: &mut Vec<u8>, place: Place) -> Result<(), AllocError>
    ensures { OnOk result (text.new.items ≡ text.old.items ++ fallen_text place) }
{
    put_cause(text, Cause::Taken(place))?;
    text.extend_from_slice(b"\", style=dashed];\n")
}

/// Writes how the edge of a grant ends.
fn put_ending(text: &mut Vec<u8>, place: Place, entry: &Record) -> Result<(), AllocError>
    ensures { OnOk result (text.new.items ≡ text.old.items ++ edge_ending_text place entry.now) }
{
    if fell_at(place, entry) {
        put_fallen(text, place)
    } else {
        text.extend_from_slice(b"\"];\n")
    }
}

/// Writes a grantee as a node.
fn put_grantee(text: &mut Vec<u8>, users: &NameTable, grantee: &Grantee) -> Result<(), AllocError>
    ensures { OnOk result (text.new.items ≡ text.old.items ++ grantee_text users.now grantee.now) }
{
    match grantee {
        Grantee::User(user) => put_user(text, users, *user),
        Grantee::Public => text.extend_from_slice(b"\"PUBLIC\""),
    }
}

/// Writes a grant as an edge from its grantor to its grantee.
fn put_edge(
    text: &mut Vec<u8>,
    names: &Catalog,
    place: Place,
    entry: &Record,
) -> Result<(), AllocError>
    ensures { OnOk result (text.new.items ≡ text.old.items ++ edge_text names.now.users names.now.tables place entry.now) }
{
    text.extend_from_slice(b"  ")?;
    put_user(text, names.users(), entry.grant.grantor)?;
    text.extend_from_slice(b" -> ")?;
    put_grantee(text, names.users(), &entry.grant.grantee)?;
    text.extend_from_slice(b" [label=\"")?;
    put_label(text, names.tables(), &entry.grant)?;
    put_ending(text, place, entry)
}

/// Whether the grant was made below the place and was in force there.
fn is_in_force_at(place: Place, entry: &Record) -> bool
    ensures { result ≡ is_in_force_at place entry.now }
{
    let has_fallen = match entry.end {
        Some(end) => end < place,
        None => false,
    };
    entry.grant.place < place && !has_fallen
}

/// Writes the lines of the grants that were in force at the place.
fn put_grants(
    text: &mut Vec<u8>,
    names: &Catalog,
    place: Place,
    records: &[Record],
) -> Result<(), AllocError>
    ensures { OnOk result (text.new.items ≡ text.old.items
        ++ flat_map (edge_text names.now.users names.now.tables place) (drawn place records.now)) }
{
    for entry in records {
        if is_in_force_at(place, entry) {
            put_edge(text, names, place, entry)?;
        }
    }
    Ok(())
}

/// Whether the grant is to PUBLIC, and was in force at the place.
fn is_drawn_to_public(place: Place, entry: &Record) -> bool
    ensures { result ≡ is_drawn_to_public place entry.now }
{
    match entry.grant.grantee {
        Grantee::User(_) => false,
        Grantee::Public => is_in_force_at(place, entry),
    }
}

/// Whether a grant to PUBLIC was in force at the place.
fn draws_public(place: Place, records: &[Record]) -> bool
    ensures { result ≡ list_any (is_drawn_to_public place) records.now }
{
    records.iter().any(|entry| is_drawn_to_public(place, entry))
}

/// Writes PUBLIC as a double circle if a grant to it was in force at the place.
fn put_public(text: &mut Vec<u8>, place: Place, records: &[Record]) -> Result<(), AllocError>
    ensures { OnOk result (text.new.items ≡ text.old.items ++ public_text place records.now) }
{
    if draws_public(place, records) {
        text.extend_from_slice(b"  \"PUBLIC\" [shape=doublecircle];\n")
    } else {
        Ok(())
    }
}

/// Writes PUBLIC, where an edge leads to it, and the lines of the grants.
fn put_granted(
    text: &mut Vec<u8>,
    names: &Catalog,
    place: Place,
    records: &[Record],
) -> Result<(), AllocError>
    ensures { OnOk result (text.new.items ≡ text.old.items ++ edges_text names.now.users names.now.tables place records.now) }
{
    put_public(text, place, records)?;
    put_grants(text, names, place, records)
}

/// Appends the grants in force at a place as a digraph of Graphviz, by the names of the log that made the book. After an error, out of
/// memory, some of it may be appended.
pub fn put_graph(
    text: &mut Vec<u8>,
    names: &Catalog,
    book: &Book,
    place: Place,
) -> Result<(), AllocError>
    ensures { OnOk result (text.new.items ≡ text.old.items ++ graph_text names.now.users names.now.tables place book.now) }
{
    text.extend_from_slice(b"digraph grants {\n")?;
    put_tables(text, names, place, book.tables())?;
    put_granted(text, names, place, book.records())?;
    text.extend_from_slice(b"}\n")?;
    Ok(())
}
