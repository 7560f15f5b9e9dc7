//! Lines, counted as the bytes of a text come.

ghost use Rattle.std.specs.Prelude.{◌≡◌, ◌≢◌, ◌∷◌, ◌++◌, All, ℕ, List, [], Some, MatchResult, length};
ghost use Rattle.std.specs.Io.{WritesAtMost};
ghost use Rattle.std.specs.Io.KnownBytes.{WriteAppends, Keeps};
ghost use Rattle.summary.specs.Tallied.{AreCountsOf, IsTallied, head_of};

use crate::counts::Counts;
use arrayvec::ArrayVec;
use memchr::memchr;
use sequencer::Past;
use std::io;
use std::io::Write;

/// Bytes of a line by which it is counted. No line of a report needs more.
pub const HEAD_BYTES: usize = 64;

/// Keeps a piece of a line, as far as it is counted by it.
fn keep(head: &mut ArrayVec<u8, HEAD_BYTES>, piece: &[u8])
    ensures { head.new.items ≡ head_of (head.old.items ++ piece.now) }
{
    let room = HEAD_BYTES - head.len();
    let count = room.min(piece.len());
    let _fits = head.try_extend_from_slice(&piece[..count]);
}

/// Counts a line that ends after this piece.
fn end_line(counts: &mut Counts, head: &mut ArrayVec<u8, HEAD_BYTES>, piece: &[u8])
    ensures { (text : List ℕ) → All (λ b. b ≢ 10) piece.now → IsTallied text counts.old head.old.items
        → IsTallied (text ++ piece.now ++ 10 ∷ []) counts.new head.new.items }
{
    keep(head, piece);
    counts.count(head.as_slice());
    head.clear();
}

/// Counts the lines that end in these bytes.
fn take(counts: &mut Counts, head: &mut ArrayVec<u8, HEAD_BYTES>, bytes: &[u8])
    ensures { (text : List ℕ) → IsTallied text counts.old head.old.items
        → IsTallied (text ++ bytes.now) counts.new head.new.items }
{
    let mut left = bytes;
    while let Some(feed) = memchr(b'\n', left) {
        end_line(counts, head, &left[..feed]);
        left = &left[feed + 1..];
    }
    keep(head, left);
}

/// Counts the whole lines of the bytes that it was given, and keeps none of them but the beginning of an unfinished line.
#[derive(Drop)]
pub struct Counting {
    counts: Counts,
    /// The line that no LF ended yet, as far as it is counted by it.
    head: ArrayVec<u8, HEAD_BYTES>,
    /// All bytes that it was given, which only clauses read.
    pub(crate) taken: Past<u8>,
    ghost tallied: { IsTallied taken.items counts head.items },
}

impl Counting {
    ghost use Rattle.summary.specs.Given.{given_to};

    /// Nothing was given yet.
    pub fn new() -> Counting
        ensures { given_to result ≡ [] }
    {
        Counting {
            counts: Counts::new(),
            head: ArrayVec::new(),
            taken: Past::new(),
        }
    }

    /// The counts of the whole lines of what was given.
    pub fn counts(&self) -> &Counts
        ensures { AreCountsOf (given_to self.now) result.now }
    {
        &self.counts
    }

    /// Counts the lines that end in these bytes.
    pub fn take(&mut self, bytes: &[u8])
        ensures { given_to self.new ≡ given_to self.old ++ bytes.now }
    {
        take(&mut self.counts, &mut self.head, bytes);
        self.taken.append(bytes);
    }
}
