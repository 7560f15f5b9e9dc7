//! A reader and a writer over memory, whose bytes are known, and which fail where they are made to.
ghost use Rattle.std.specs.Prelude.{◌≡◌, ◌-◌, ◌↔◌, [], Some, IfOk, IsErr, false, length, max, min, option_map};
ghost use Rattle.std.specs.Io.{ReadsAtMost, WritesAtMost};
ghost use Rattle.std.specs.Io.KnownBytes.{ReadConsumes, WriteAppends, Keeps};

use std::alloc::Global;
use std::io;
use std::io::{ErrorKind, Read, Write};

/// Whether one more call goes well, of which this many do before the rest fail, and takes it off them. All go well where no number is
/// given.
fn goes_well(calls: &mut Option<u64>) -> bool
    ensures fails { (result ≡ false) ↔ (calls.old ≡ Some 0) }
    ensures left { calls.new ≡ option_map (λ count. count - 1) calls.old }
{
    match *calls {
        None => true,
        Some(0) => false,
        Some(left) => {
            *calls = Some(left - 1);
            true
        }
    }
}

/// Gives the bytes of a slice, this many a read, and fails where it is made to. It says which bytes it still has.
#[derive(Drop)]
pub struct MemoryReader<'a> {
    /// The bytes that are left to give.
    pub left: &'a [u8],
    /// The most bytes that a read gives; at 0 a read gives one.
    pub most: usize,
    /// How many reads go well before the rest fail. None fails where this is `None`.
    pub reads: Option<u64>,
}

impl<'a> MemoryReader<'a> {
    /// Gives all bytes, as many as there is room for.
    pub fn new(bytes: &'a [u8]) -> MemoryReader<'a>
        ensures left { result.left.now ≡ bytes.entry.now }
        ensures reads { result.reads ≡ None }
    {
        MemoryReader {
            left: bytes,
            most: usize::MAX,
            reads: None,
        }
    }
}

impl Read for MemoryReader<'_> {
    ghost remaining = { λ r. Some r.left.now };

    fn read(&mut self, buf: &mut [u8]) -> io::Result<usize>
        ensures bound { ReadsAtMost result buf.new }
        ensures bytes { ReadConsumes (Some self.old.left.now) (Some self.new.left.now) result buf.new }
        ensures fails { IsErr result ↔ (self.old.reads ≡ Some 0) }
        ensures count { IfOk result (λ n. n ≡ min (min (max self.old.most 1) (length buf.old)) (length self.old.left.now)) }
        ensures left { self.new.reads ≡ option_map (λ count. count - 1) self.old.reads }
        ensures most { self.new.most ≡ self.old.most }
    {
        if !goes_well(&mut self.reads) {
            return Err(io::Error::from(ErrorKind::Other));
        }
        let count = self.most.max(1).min(buf.len()).min(self.left.len());
        let (now, later) = self.left.split_at(count);
        buf[..count].copy_from_slice(now);
        self.left = later;
        Ok(count)
    }
}

/// Keeps what is written, takes this many bytes a write, and fails where it is made to. It says which bytes it has taken.
#[derive(Drop)]
pub struct MemoryWriter {
    /// The bytes that were written.
    pub taken: Vec<u8>,
    /// The most bytes that a write takes. At 0 a write takes none.
    pub most: usize,
    /// How many writes go well before the rest fail. None fails where this is `None`.
    pub writes: Option<u64>,
    /// How many flushes go well before the rest fail. None fails where this is `None`.
    pub flushes: Option<u64>,
}

impl MemoryWriter {
    /// Takes all bytes.
    pub fn new(alloc: Global) -> MemoryWriter
        ensures taken { result.taken.items ≡ [] }
        ensures writes { result.writes ≡ None }
        ensures flushes { result.flushes ≡ None }
    {
        MemoryWriter {
            taken: Vec::new(alloc),
            most: usize::MAX,
            writes: None,
            flushes: None,
        }
    }
}

impl Write for MemoryWriter {
    ghost contents = { λ w. Some w.taken.items };

    /// Takes bytes off the front of `buf`. It fails also where memory runs out.
    fn write(&mut self, buf: &[u8]) -> io::Result<usize>
        ensures bound { WritesAtMost result buf.now }
        ensures bytes { WriteAppends (Some self.old.taken.items) (Some self.new.taken.items) result buf.now }
        ensures fails { self.old.writes ≡ Some 0 → IsErr result }
        ensures count { IfOk result (λ n. n ≡ min (length buf.now) self.old.most) }
        ensures left { self.new.writes ≡ option_map (λ count. count - 1) self.old.writes }
        ensures rest { (self.new.most ≡ self.old.most) × (self.new.flushes ≡ self.old.flushes) }
    {
        if !goes_well(&mut self.writes) {
            return Err(io::Error::from(ErrorKind::Other));
        }
        let count = buf.len().min(self.most);
        self.taken.extend_from_slice(&buf[..count])?;
        Ok(count)
    }

    fn flush(&mut self) -> io::Result<()>
        ensures bytes { Keeps (Some self.old.taken.items) (Some self.new.taken.items) }
        ensures fails { IsErr result ↔ (self.old.flushes ≡ Some 0) }
        ensures left { self.new.flushes ≡ option_map (λ count. count - 1) self.old.flushes }
        ensures rest { (self.new.most ≡ self.old.most) × (self.new.writes ≡ self.old.writes) }
    {
        if !goes_well(&mut self.flushes) {
            return Err(io::Error::from(ErrorKind::Other));
        }
        Ok(())
    }
}
