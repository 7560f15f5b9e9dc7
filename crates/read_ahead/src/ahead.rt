//! What was found of a line before its turn.

ghost use Rattle.std.specs.Prelude.{◌≡◌, ◌≢◌, List, Some, ℕ};
ghost use Rattle.log_text.specs.Fault.{fault_in};
ghost use Rattle.sequencer.specs.Catalog.{Names};
ghost use Rattle.read_ahead.specs.Ahead.{IsFoundOf};

use log_text::{LineBuffers, LineFault, read_into};
use model_base::Statement;
use sequencer::{Catalog, Recent, StatementBuffers};
use std::alloc::Global;

/// What reading one line after another uses again: the buffers of lines and of statements, and the user and the table that were found last.
#[derive(Drop)]
pub(crate) struct ReadBuffers<'a> {
    pub(crate) alloc: Global,
    recent: Recent,
    lines: LineBuffers<'a>,
    pub(crate) statements: StatementBuffers,
}

impl<'a> ReadBuffers<'a> {
    /// Buffers for nothing yet. It doesn't allocate.
    pub(crate) fn new(alloc: Global) -> Self {
        ReadBuffers {
            alloc,
            recent: Recent::new(),
            lines: LineBuffers::new(alloc),
            statements: StatementBuffers::new(alloc),
        }
    }
}

/// What was found of a line.
#[derive(Drop)]
pub enum Found {
    /// The statement that its sentence becomes at any later place.
    Known(Statement),
    /// Its fault.
    Faulty(LineFault),
    /// Nothing: its turn will give.
    Unread,
}

/// A line that was read before its turn, and where it is among the bytes.
#[derive(Drop)]
pub struct Ahead {
    /// The index of its first byte.
    pub from: usize,
    /// How many bytes it has, with its LF.
    pub count: usize,
    pub found: Found,
}

impl Ahead {
    /// A line of which nothing is known.
    pub(crate) fn unread() -> Self {
        Ahead {
            from: 0,
            count: 0,
            found: Found::Unread,
        }
    }
}

/// What a line's fault gives. Out of memory says nothing.
fn found_faulty(fault: LineFault) -> Found
    ensures { (names : Names) (line : List ℕ)
        → (fault ≢ LineFault.NoMemory → fault_in names.version line ≡ Some fault) → IsFoundOf names line result }
{
    match fault {
        LineFault::NoMemory => Found::Unread,
        other => Found::Faulty(other),
    }
}

/// Reads a line in the version of the log, and numbers its statement by the names of an earlier place. What was found of an earlier line
/// is lost, but for the memory that it held.
#[inline(always)]
pub(crate) fn read_found<'a>(
    catalog: &Catalog,
    line: &'a [u8],
    buffers: &mut ReadBuffers<'a>,
    found: &mut Found,
)
    ensures { IsFoundOf catalog.now line.now found.new }
{
    if let Found::Known(statement) = found {
        buffers.statements.take_over(buffers.alloc, statement);
    }
    let version = catalog.version();
    if let Err(fault) = read_into(version, line, &mut buffers.lines) {
        *found = found_faulty(fault);
        return;
    }
    let (recent, statements) = (&mut buffers.recent, &mut buffers.statements);
    match catalog.foretell(recent, &buffers.lines, statements) {
        Some(statement) => *found = Found::Known(statement),
        None => *found = Found::Unread,
    }
}
