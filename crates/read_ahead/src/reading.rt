//! The lines of a piece of the bytes, read before their turn.

ghost use Rattle.std.specs.Prelude.{◌<◌, ◌≤◌, ◌+◌, All, IfSome, length};
ghost use Rattle.read_ahead.specs.Ahead.{IsAhead};

use crate::ahead::ReadBuffers;
use crate::piece::Piece;
use line_io::cut_line;
use sequencer::Catalog;
use std::alloc::Global;

/// How many lines of a piece are read before their turn, at most: what they become is kept until then.
pub const MOST_LINES_AHEAD: usize = 4096;

/// Reads the line that begins at an index of the bytes, appends what was found of it to the piece, and returns how many bytes
/// it takes. None where no line is whole there, or where memory ran out.
fn read_next<'a>(
    catalog: &Catalog,
    bytes: &'a [u8],
    at: usize,
    buffers: &mut ReadBuffers<'a>,
    piece: &mut Piece,
) -> Option<usize>
    requires { at ≤ length bytes.now }
    ensures count { IfSome result (λ count. (0 < count) × (at + count ≤ length bytes.now)) }
    ensures ahead { All (IsAhead catalog.now bytes.now) piece.old → All (IsAhead catalog.now bytes.now) piece.new }
{
    let (line, count) = cut_line(&bytes[at..])?;
    if piece.read(catalog, line, at, count, buffers) {
        Some(count)
    } else {
        None
    }
}

/// Reads the lines that begin from one index of the bytes on and before another, where a line begins at the first, and numbers
/// their statements by these names. It leaves the catalog as it is. It reads no more than `MOST_LINES_AHEAD`, and ends early
/// where memory runs out. What the piece held is of no more use.
fn read_lines<'a>(
    catalog: &Catalog,
    bytes: &'a [u8],
    from: usize,
    to: usize,
    buffers: &mut ReadBuffers<'a>,
    piece: &mut Piece,
)
    requires { from ≤ length bytes.now }
    ensures { All (IsAhead catalog.now bytes.now) piece.new }
{
    piece.clear();
    let mut at = from;
    'lines: while at < to && piece.len() < MOST_LINES_AHEAD {
        match read_next(catalog, bytes, at, buffers, piece) {
            Some(count) => at += count,
            None => break,
        }
    }
}

/// The lines that begin from one index of the bytes on and before another, as `read_lines` reads them.
pub fn foretell_lines(
    alloc: Global,
    catalog: &Catalog,
    bytes: &[u8],
    from: usize,
    to: usize,
    mut piece: Piece,
) -> Piece
    requires { from ≤ length bytes.now }
    ensures { All (IsAhead catalog.now bytes.now) result }
{
    let mut buffers = ReadBuffers::new(alloc);
    read_lines(catalog, bytes, from, to, &mut buffers, &mut piece);
    piece.drop_spare();
    piece
}
