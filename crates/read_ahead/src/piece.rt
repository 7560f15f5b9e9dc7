//! Lines that were read before their turn, and room for further ones.

ghost use Rattle.std.specs.Prelude.{◌≡◌, ◌++◌, ◌∷◌, [], OnErr, OnOk};

use crate::ahead::{Ahead, ReadBuffers, read_found};
use sequencer::Catalog;
use std::alloc::{AllocError, Global};
use std::marker::Model;

/// By how many lines a full list grows. Many pieces wait at once, so that lists of twice the length would take much memory.
const MORE_LINES: usize = 64;

/// Lines that were read before their turn, in order. Lists of lines that are of no more use stay after them, so that the lines of one piece
/// after another need no memory.
#[derive(Drop)]
pub struct Piece {
    lines: Vec<Ahead>,
    /// How many of them are of this piece.
    len: usize,
}

/// Appends a line to a list. On `Err`, out of memory, the list is unchanged.
fn push_line(lines: &mut Vec<Ahead>, line: Ahead) -> Result<(), AllocError>
    ensures ok { OnOk result (lines.new.items ≡ lines.old.items ++ line ∷ []) }
    ensures err { OnErr result (lines.new.items ≡ lines.old.items) }
{
    if lines.len() == lines.capacity() {
        lines.reserve_exact(MORE_LINES)?;
    }
    lines.push(line)?;
    Ok(())
}

impl Model for Piece {
    ghost use Rattle.std.specs.Prelude.{List, ◌≤◌, length, take};
    ghost use Rattle.read_ahead.specs.declared.ahead.Ahead.{Ahead};

    ghost Value = { List Ahead };

    ghost view = { λ piece. take piece.len piece.lines.items };

    ghost invariant = { λ piece. piece.len ≤ length piece.lines.items };
}

impl Piece {
    ghost use Rattle.std.specs.Prelude.{◌≡◌, ◌≤◌, [], length, take};
    ghost use Rattle.std.specs.Bool.{OnFalse, OnTrue};
    ghost use Rattle.read_ahead.specs.Ahead.{ReadsLine};

    /// No lines. It doesn't allocate.
    pub fn new(alloc: Global) -> Self
        ensures { result ≡ [] }
    {
        Piece {
            lines: Vec::new(alloc),
            len: 0,
        }
    }

    /// The lines, in order.
    pub fn lines(&self) -> &[Ahead]
        ensures { result.now ≡ self.now }
    {
        &self.lines[..self.len]
    }

    /// A piece without lines, the first of which take what these hold.
    pub fn over(spare: Vec<Ahead>) -> Self
        ensures { result ≡ [] }
    {
        let mut piece = Piece {
            len: spare.len(),
            lines: spare,
        };
        piece.clear();
        piece
    }

    /// The lines, in order, and how many they are; after them there may be lines of no more use.
    pub fn into_lines(self) -> (Vec<Ahead>, usize)
        ensures lines { take result.1 result.0.items ≡ self }
        ensures within { result.1 ≤ length result.0.items }
    {
        (self.lines, self.len)
    }

    /// How many lines there are.
    pub fn len(&self) -> usize
        ensures { result ≡ length self.now }
    {
        self.len
    }

    /// Leaves no line. What they held stays for further ones.
    pub(crate) fn clear(&mut self)
        ensures { self.new ≡ [] }
    {
        self.len = 0;
    }

    /// Gives back what lines that are of no more use hold.
    pub(crate) fn drop_spare(&mut self)
        ensures { self.new ≡ self.old }
    {
        self.lines.truncate(self.len);
    }

    /// Reads a line after the others, as `read_found`. False where memory ran out, and then nothing has changed.
    #[inline(always)]
    pub(crate) fn read<'a>(
        &mut self,
        catalog: &Catalog,
        line: &'a [u8],
        from: usize,
        count: usize,
        buffers: &mut ReadBuffers<'a>,
    ) -> bool
        ensures read { OnTrue result (ReadsLine catalog.now line.now from count self.old self.new) }
        ensures same { OnFalse result (self.new ≡ self.old) }
    {
        if self.len == self.lines.len() && push_line(&mut self.lines, Ahead::unread()).is_err() {
            return false;
        }
        let next = &mut self.lines[self.len];
        read_found(catalog, line, buffers, &mut next.found);
        next.from = from;
        next.count = count;
        self.len += 1;
        true
    }
}
