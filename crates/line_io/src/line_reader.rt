//! A reader of lines that keeps at most `KEPT_BYTES` of a line.
ghost use Rattle.std.specs.Prelude.{◌≡◌, ◌<◌, ◌≤◌, ◌+◌, ◌^◌, [], ◌++◌, IfOk, OnOk, IfErr, OnErr, MatchBool, drop, length, take, vec_len};
ghost use Rattle.std.specs.Io.KnownBytes.{Keeps, IsAtEnd, prepend_known};
ghost use Rattle.memchr.specs.Find.{IsFirstByte, is_byte};
ghost use Rattle.line_io.specs.Faults.{IsOfReading};
ghost use Rattle.line_io.specs.Known.{raised, ReadSome, TookLine, HadSome};
ghost use Rattle.line_io.specs.Lines.{HasLine};
ghost use Rattle.line_io.specs.declared.limits.TheConstants.{BUFFER_BYTES, FIRST_BUFFER_BYTES, KEPT_BYTES};

use super::counted::Counted;
use super::fault::EngineFault;
use super::limits::{BUFFER_BYTES, FIRST_BUFFER_BYTES, KEPT_BYTES, MOST_GIVEN_BYTES};
use memchr::memchr;
use std::alloc::{AllocError, Global};
use std::io::Read;

/// A buffer of this many bytes to read into.
fn empty_buffer(alloc: Global, bytes: usize) -> Result<Vec<u8>, AllocError>
    ensures { IfOk result (λ buffer. vec_len buffer ≡ bytes) }
{
    vec![in alloc; 0; bytes]
}

/// Reads a text line by line, through a buffer of `FIRST_BUFFER_BYTES`, or one that grows up to `BUFFER_BYTES`. Lines are cut at LF, and a
/// last piece without LF is a line if it isn't empty. Of a line longer than `KEPT_BYTES` the first this many are kept.
///
/// It doesn't own the reader, so each call is to be made with the same one.
#[derive(Drop)]
pub struct LineReader {
    /// What was read ahead, from `start` to `end`.
    buffer: Vec<u8>,
    start: usize,
    end: usize,
    /// Where the line that was found last is in the buffer, if it isn't `kept`.
    line_start: usize,
    line_end: usize,
    /// Whether that line crossed the buffer's end, and was copied.
    is_kept: bool,
    kept: Vec<u8>,
    /// How many bytes the buffer has at most.
    most: usize,
    alloc: Global,
    ghost some: { 0 < vec_len buffer },
    ghost room: { vec_len buffer ≤ most },
    ghost most_room: { most ≤ BUFFER_BYTES },
    ghost ordered: { start ≤ end },
    ghost within: { end ≤ vec_len buffer },
    ghost line_ordered: { line_start ≤ line_end },
    ghost line_within: { line_end ≤ vec_len buffer },
    ghost short: { vec_len kept ≤ KEPT_BYTES },
}

impl LineReader {
    ghost use Rattle.line_io.specs.Ahead.{ahead, found_line, most_ahead};

    /// Nothing read ahead, and no line found. The buffer keeps its `FIRST_BUFFER_BYTES`. The error is
    /// that memory ran out.
    pub fn new(alloc: Global) -> Result<LineReader, AllocError>
        ensures ahead { IfOk result (λ lines. ahead lines ≡ []) }
        ensures line { IfOk result (λ lines. found_line lines ≡ []) }
        ensures most { IfOk result (λ lines. most_ahead lines ≡ FIRST_BUFFER_BYTES) }
    {
        Ok(LineReader {
            buffer: empty_buffer(alloc, FIRST_BUFFER_BYTES)?,
            start: 0,
            end: 0,
            line_start: 0,
            line_end: 0,
            is_kept: false,
            kept: Vec::new(alloc),
            most: FIRST_BUFFER_BYTES,
            alloc,
        })
    }

    /// As `new`, but each time that a read fills the buffer it is twice as long for the next one, up
    /// to `BUFFER_BYTES`, where memory isn't refused.
    pub fn growing(alloc: Global) -> Result<LineReader, AllocError>
        ensures ahead { IfOk result (λ lines. ahead lines ≡ []) }
        ensures line { IfOk result (λ lines. found_line lines ≡ []) }
        ensures most { IfOk result (λ lines. most_ahead lines ≡ BUFFER_BYTES) }
    {
        let mut lines = LineReader::new(alloc)?;
        lines.most = BUFFER_BYTES;
        Ok(lines)
    }

    /// The line that the last `next_line` found, without its LF: its first `KEPT_BYTES`, if it has more. Where that call returned false or
    /// an error, no promise is made of these bytes.
    pub fn line(&self) -> &[u8]
        ensures { result.now ≡ found_line self.now }
    {
        if self.is_kept {
            return self.kept.as_slice();
        }
        &self.buffer[self.line_start..self.line_end]
    }

    /// What was read ahead and not taken yet.
    pub fn bytes_ahead(&self) -> &[u8]
        ensures { result.now ≡ ahead self.now }
    {
        &self.buffer[self.start..self.end]
    }

    /// Takes the first this many of the bytes ahead. The line that was found last stays so.
    #[tactic(auto, using(crate::proofs::Pieces::drop_range, crate::proofs::Pieces::length_range))]
    pub fn take_ahead(&mut self, count: usize)
        requires { count ≤ length (ahead self.old) }
        ensures ahead { ahead self.new ≡ drop count (ahead self.old) }
        ensures line { found_line self.new ≡ found_line self.old }
        ensures most { most_ahead self.new ≡ most_ahead self.old }
    {
        self.start += count;
    }

    /// Where the first LF ahead is.
    #[inline(always)]
    fn first_feed(&self) -> Option<usize>
        ensures { IsFirstByte (is_byte 10) (ahead self.now) result }
    {
        memchr(b'\n', &self.buffer[self.start..self.end])
    }

    #[tactic(auto, using(crate::proofs::Pieces::empty_range))]
    /// Takes a longer buffer where the last read filled this one and it may grow. Where memory is
    /// refused the buffer stays as it is.
    fn grow(&mut self)
        requires { self.old.start ≡ self.old.end }
        ensures ahead { self.new.start ≡ self.new.end }
        ensures kept { self.new.kept.items ≡ self.old.kept.items }
        ensures is_kept { self.new.is_kept ≡ self.old.is_kept }
        ensures most { most_ahead self.new ≡ most_ahead self.old }
    {
        let bytes = self.buffer.len();
        if self.end < bytes || bytes >= self.most {
            return;
        }
        if let Ok(buffer) = empty_buffer(self.alloc, self.most.min(2 * bytes)) {
            self.buffer = buffer;
        }
    }

    #[tactic(auto, using(crate::proofs::Pieces::empty_range))]
    /// Reads ahead where nothing is ahead. False at the end of what the reader gives.
    fn refill<R: Read>(&mut self, reader: &mut Counted<R>) -> Result<bool, EngineFault>
        requires { self.old.start ≡ self.old.end }
        ensures bytes { OnOk result (Keeps (R.remaining reader.old.inner)
            (prepend_known (ahead self.new) (R.remaining reader.new.inner))) }
        ensures some { IfOk result (λ more. MatchBool more
            (0 < length (ahead self.new))
            ((self.new.start ≡ self.new.end) × IsAtEnd (R.remaining reader.new.inner))) }
        ensures given { OnOk result (reader.new.given ≡ reader.old.given + length (ahead self.new)) }
        ensures bound { 0 < length (ahead self.new) → reader.new.given ≤ MOST_GIVEN_BYTES + BUFFER_BYTES }
        ensures ok { OnOk result (reader.new.errors ≡ reader.old.errors) }
        ensures err { IfErr result (λ f. (f ≡ EngineFault.Read)
            × (reader.new.errors ≡ raised reader.old.errors)) }
        ensures gone { OnErr result (self.new.start ≡ self.new.end) }
        ensures left { ReadSome (R.remaining reader.old.inner) (R.remaining reader.new.inner) }
        ensures kept { self.new.kept.items ≡ self.old.kept.items }
        ensures is_kept { self.new.is_kept ≡ self.old.is_kept }
        ensures most { most_ahead self.new ≡ most_ahead self.old }
    {
        self.grow();
        match reader.read(self.buffer.as_mut_slice()) {
            Ok(n) => {
                self.start = 0;
                self.end = n;
                return Ok(n > 0);
            }
            Err(_) => return Err(EngineFault::Read),
        }
    }

    #[tactic(auto, using(crate::proofs::Pieces::empty_range))]
    /// Reads ahead if nothing is ahead. False at the end of what the reader gives.
    fn look_ahead<R: Read>(&mut self, reader: &mut Counted<R>) -> Result<bool, EngineFault>
        requires { 0 < length (ahead self.old) → reader.old.given ≤ MOST_GIVEN_BYTES + BUFFER_BYTES }
        ensures bytes { OnOk result (Keeps
            (prepend_known (ahead self.old) (R.remaining reader.old.inner))
            (prepend_known (ahead self.new) (R.remaining reader.new.inner))) }
        ensures some { IfOk result (λ more. MatchBool more
            (0 < length (ahead self.new))
            ((ahead self.new ≡ []) × IsAtEnd (R.remaining reader.new.inner)
            × (reader.new.given ≡ reader.old.given))) }
        ensures given { OnOk result (reader.new.given + length (ahead self.old)
            ≡ reader.old.given + length (ahead self.new)) }
        ensures bound { 0 < length (ahead self.new) → reader.new.given ≤ MOST_GIVEN_BYTES + BUFFER_BYTES }
        ensures ok { OnOk result (reader.new.errors ≡ reader.old.errors) }
        ensures err { IfErr result (λ f. (f ≡ EngineFault.Read)
            × (reader.new.errors ≡ raised reader.old.errors)) }
        ensures gone { OnErr result (ahead self.new ≡ []) }
        ensures left { ReadSome (R.remaining reader.old.inner) (R.remaining reader.new.inner) }
        ensures kept { self.new.kept.items ≡ self.old.kept.items }
        ensures is_kept { self.new.is_kept ≡ self.old.is_kept }
        ensures most { most_ahead self.new ≡ most_ahead self.old }
        ensures unread { 0 < length (ahead self.old)
            → (reader.new ≡ reader.old) × (ahead self.new ≡ ahead self.old) }
    {
        if self.start < self.end {
            return Ok(true);
        }
        let more = self.refill(reader)?;
        Ok(more)
    }

    #[tactic(auto, using(crate::proofs::Pieces::keep_piece))]
    /// Keeps the next n bytes ahead after what is kept, up to `KEPT_BYTES` in all.
    fn keep(&mut self, n: usize) -> Result<(), AllocError>
        requires { n ≤ length (ahead self.old) }
        ensures kept { OnOk result (self.new.kept.items
            ≡ take KEPT_BYTES (self.old.kept.items ++ take n (ahead self.old))) }
        ensures ahead { ahead self.new ≡ ahead self.old }
        ensures start { self.new.start ≡ self.old.start }
        ensures end { self.new.end ≡ self.old.end }
        ensures is_kept { self.new.is_kept ≡ self.old.is_kept }
        ensures most { most_ahead self.new ≡ most_ahead self.old }
    {
        let more = n.min(KEPT_BYTES - self.kept.len());
        self.kept
            .extend_from_slice(&self.buffer[self.start..self.start + more])?;
        Ok(())
    }

    #[tactic(auto, using(crate::proofs::Pieces::line_start))]
    /// Takes the rest of the line, and keeps it after what is kept, up to `KEPT_BYTES` in all.
    fn rest_of_line<R: Read>(&mut self, reader: &mut Counted<R>) -> Result<(), EngineFault>
        requires some { 0 < length (ahead self.old) }
        requires given { reader.old.given ≤ MOST_GIVEN_BYTES + BUFFER_BYTES }
        ensures line { OnOk result (TookLine
            (prepend_known (ahead self.old) (R.remaining reader.old.inner))
            (prepend_known (ahead self.new) (R.remaining reader.new.inner))
            self.old.kept.items self.new.kept.items) }
        ensures read { result ≡ Err EngineFault.Read → reader.new.errors ≡ raised reader.old.errors }
        ensures other { (result ≡ Err EngineFault.Read → ⊥)
            → reader.new.errors ≡ reader.old.errors }
        ensures fault { IfErr result IsOfReading }
        ensures forward { OnOk result (
            (reader.old.given + length (ahead self.new) < reader.new.given + length (ahead self.old))
            × (reader.new.given ≤ MOST_GIVEN_BYTES + BUFFER_BYTES)) }
        ensures bound { 0 < length (ahead self.new) → reader.new.given ≤ MOST_GIVEN_BYTES + BUFFER_BYTES }
        ensures left { ReadSome (R.remaining reader.old.inner) (R.remaining reader.new.inner) }
        ensures gone { result ≡ Err EngineFault.Read → ahead self.new ≡ [] }
        ensures is_kept { self.new.is_kept ≡ self.old.is_kept }
        ensures most { most_ahead self.new ≡ most_ahead self.old }
    {
        'pieces: loop {
            if let Some(n) = self.first_feed() {
                self.keep(n)?;
                self.start += n + 1;
                return Ok(());
            }
            self.keep(self.end - self.start)?;
            self.start = self.end;
            if !self.look_ahead(reader)? {
                return Ok(());
            }
        }
    }

    /// Finds the next line, and takes it. False at the end of what the reader gives.
    ///
    /// `Read` comes only where the reader returned an error, or had given `MOST_GIVEN_BYTES`. After an error the part of a line that was
    /// read is gone, and a further call may be made.
    #[inline(always)]
    pub fn next_line<R: Read>(&mut self, reader: &mut Counted<R>) -> Result<bool, EngineFault>
        requires { 0 < length (ahead self.old) → reader.old.given ≤ MOST_GIVEN_BYTES + BUFFER_BYTES }
        // What is still to come is what is ahead, and then what the reader has left.
        ensures line { IfOk result (λ found. MatchBool found
            (TookLine (prepend_known (ahead self.old) (R.remaining reader.old.inner))
            (prepend_known (ahead self.new) (R.remaining reader.new.inner))
            [] (found_line self.new)
            × HadSome (prepend_known (ahead self.old) (R.remaining reader.old.inner)))
            (IsAtEnd (prepend_known (ahead self.old) (R.remaining reader.old.inner)))) }
        // An error of the reader is returned as such, and nothing else is.
        ensures read { result ≡ Err EngineFault.Read → reader.new.errors ≡ raised reader.old.errors }
        ensures other { (result ≡ Err EngineFault.Read → ⊥)
            → reader.new.errors ≡ reader.old.errors }
        ensures fault { IfErr result IsOfReading }
        // A line has a byte at least, so a loop over the lines ends.
        ensures given { IfOk result (λ found. MatchBool found
            ((reader.old.given + length (ahead self.new) < reader.new.given + length (ahead self.old))
            × (reader.new.given ≤ MOST_GIVEN_BYTES + BUFFER_BYTES))
            (reader.new.given ≡ reader.old.given)) }
        // What the reader has left is an end of what it had, after an error too.
        ensures left { ReadSome (R.remaining reader.old.inner) (R.remaining reader.new.inner) }
        // What a further call requires holds after an error too.
        ensures bound { 0 < length (ahead self.new) → reader.new.given ≤ MOST_GIVEN_BYTES + BUFFER_BYTES }
        // After an error of the reader nothing of the line is ahead.
        ensures gone { result ≡ Err EngineFault.Read → ahead self.new ≡ [] }
        ensures most { most_ahead self.new ≡ most_ahead self.old }
        // Where a whole line was read ahead, the reader isn't asked.
        ensures unread { HasLine (ahead self.old) → reader.new ≡ reader.old }
    {
        if !self.look_ahead(reader)? {
            return Ok(false);
        }
        if let Some(n) = self.first_feed() {
            self.is_kept = false;
            self.line_start = self.start;
            self.line_end = self.start + n.min(KEPT_BYTES);
            self.start += n + 1;
            return Ok(true);
        }
        self.is_kept = true;
        self.kept.clear();
        self.rest_of_line(reader)?;
        Ok(true)
    }
}
