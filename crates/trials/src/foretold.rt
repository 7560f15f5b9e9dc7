//! Lines that are read, and statements that are numbered, before their turn.

use read_ahead::{Ahead, Found, Piece, foretell_lines, piece_cuts};
use sequencer::Catalog;
use std::alloc::{AllocError, Global};

/// Lines whose names are known from the second on: what they ask for is foretold, but for a new user, a new table, a new grantee and a
/// column that isn't there.
const LINES: &str = "alice RUN t:1:R\n\
    bob GRANT READ t alice\n\
    carol RUN t:1:R\n\
    alice CREATE s 1\n\
    alice RUNS t:1:R\n\
    alice REVOKE READ t bob\n\
    alice GRANT READ t dave\n\
    alice RUN t:1:R | LOAD 0 t 1 2\n\
    bob GRANT READ t PUBLIC\n\
    alice";

/// What was found of a line.
fn found_text(alloc: Global, line: &Ahead) -> Result<String, AllocError> {
    let (from, count) = (line.from, line.count);
    match &line.found {
        Found::Known(statement) => format!(in alloc; "{from}+{count} {statement:?}"),
        Found::Faulty(fault) => format!(in alloc; "{from}+{count} {fault:?}"),
        Found::Unread => format!(in alloc; "{from}+{count} unread"),
    }
}

/// What is found of the lines of a piece, each in a line.
fn put_piece(alloc: Global, text: &mut String, piece: &Piece) -> Result<(), AllocError> {
    for line in piece.lines() {
        text.push_str("\n  ")?;
        text.push_str(found_text(alloc, line)?.as_str())?;
    }
    Ok(())
}

/// What is found of lines by these names, and once more of the first with the lists of the first time.
pub fn foretold(alloc: Global, catalog: &Catalog) -> Result<String, AllocError> {
    let bytes = LINES.as_bytes();
    let mut text = String::from_str(alloc, "lines read ahead")?;
    let piece = foretell_lines(alloc, catalog, bytes, 0, bytes.len(), Piece::new(alloc));
    put_piece(alloc, &mut text, &piece)?;
    let again = foretell_lines(alloc, catalog, bytes, 0, 60, piece);
    put_piece(alloc, &mut text, &again)?;
    Ok(text)
}

/// Where three pieces of these lines begin.
pub fn cuts(alloc: Global) -> Result<String, AllocError> {
    let bytes = LINES.as_bytes();
    let cuts = piece_cuts(alloc, bytes, 0, bytes.len(), 3)?;
    format!(in alloc; "{cuts:?}")
}

/// What other names catch up.
pub fn caught_up(alloc: Global, catalog: &Catalog) -> Result<String, AllocError> {
    let mut names = Catalog::new(alloc);
    names.catch_up(catalog)?;
    let (users, places) = (names.users().len(), names.places());
    format!(in alloc; "{users} users, {places} places")
}
