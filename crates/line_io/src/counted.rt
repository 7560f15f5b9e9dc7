//! A reader or a writer that counts its failures.
ghost use Rattle.std.specs.Prelude.{◌≡◌, ◌<◌, ◌+◌, ◌^◌, IfOk, OnOk, OnErr, false, length, true};
ghost use Rattle.std.specs.Io.{ReadsAtMost, WritesAtMost};
ghost use Rattle.std.specs.Io.KnownBytes.{ReadConsumes, WriteAppends, Keeps};
ghost use Rattle.line_io.specs.Known.{raised};

use super::limits::MOST_GIVEN_BYTES;
use std::io;
use std::io::{ErrorKind, Read, Write};

/// A reader or a writer, with how often it failed, how many bytes it gave, and how often it was flushed.
#[derive(Drop)]
pub struct Counted<T> {
    /// The reader or the writer itself.
    pub inner: T,
    /// The errors returned and, of a writer, the writes that took no byte of a piece that wasn't empty. The count stops at `u64::MAX`.
    pub errors: u64,
    /// The bytes that a reader gave.
    pub given: u64,
    /// The flushes of a writer that succeeded. The count stops at `u64::MAX`.
    pub flushes: u64,
    /// Whether a writer was flushed, and not written to since.
    pub is_flushed: bool,
}

impl<T> Counted<T> {
    /// Begins to count, all at 0.
    pub fn new(inner: T) -> Counted<T>
        ensures inner { result.inner ≡ inner }
        ensures errors { result.errors ≡ 0 }
        ensures given { result.given ≡ 0 }
        ensures flushes { result.flushes ≡ 0 }
        ensures unflushed { result.is_flushed ≡ false }
    {
        Counted {
            inner,
            errors: 0,
            given: 0,
            flushes: 0,
            is_flushed: false,
        }
    }
}

impl<R: Read> Read for Counted<R> {
    ghost remaining = { λ c. R.remaining c.inner };

    /// Reads into `buf`, and counts. Once `MOST_GIVEN_BYTES` were given it returns an error of its own.
    fn read(&mut self, buf: &mut [u8]) -> io::Result<usize>
        ensures bound { ReadsAtMost result buf.new }
        ensures bytes { ReadConsumes (R.remaining self.old.inner) (R.remaining self.new.inner)
            result buf.new }
        ensures ok { OnOk result (self.new.errors ≡ self.old.errors) }
        ensures err { OnErr result (self.new.errors ≡ raised self.old.errors) }
        ensures given { IfOk result (λ n. (self.new.given ≡ self.old.given + n)
            × (self.old.given < MOST_GIVEN_BYTES)) }
        ensures err_given { OnErr result (self.new.given ≡ self.old.given) }
    {
        if self.given >= MOST_GIVEN_BYTES {
            self.errors = self.errors.saturating_add(1);
            return Err(io::Error::from(ErrorKind::Other));
        }
        match self.inner.read(buf) {
            Ok(n) => {
                self.given += n as u64;
                Ok(n)
            }
            Err(e) => {
                self.errors = self.errors.saturating_add(1);
                Err(e)
            }
        }
    }
}

impl<W: Write> Write for Counted<W> {
    ghost contents = { λ c. W.contents c.inner };

    /// Writes, and counts an error, or that no byte was taken of a piece that isn't empty.
    fn write(&mut self, buf: &[u8]) -> io::Result<usize>
        ensures bound { WritesAtMost result buf.now }
        ensures bytes { WriteAppends (W.contents self.old.inner) (W.contents self.new.inner)
            result buf.now }
        ensures ok { IfOk result (λ n. (0 < n → self.new.errors ≡ self.old.errors)
            × (n ≡ 0 → 0 < length buf.now → self.new.errors ≡ raised self.old.errors)) }
        ensures err { OnErr result (self.new.errors ≡ raised self.old.errors) }
        ensures flushes { self.new.flushes ≡ self.old.flushes }
        ensures written { self.new.is_flushed ≡ false }
    {
        self.is_flushed = false;
        match self.inner.write(buf) {
            Ok(n) => {
                if n == 0 && !buf.is_empty() {
                    self.errors = self.errors.saturating_add(1);
                }
                Ok(n)
            }
            Err(e) => {
                self.errors = self.errors.saturating_add(1);
                Err(e)
            }
        }
    }

    /// Flushes, and counts that, or an error.
    fn flush(&mut self) -> io::Result<()>
        ensures bytes { Keeps (W.contents self.old.inner) (W.contents self.new.inner) }
        ensures ok { OnOk result (self.new.errors ≡ self.old.errors) }
        ensures err { OnErr result (self.new.errors ≡ raised self.old.errors) }
        ensures flushed { OnOk result ((self.new.flushes ≡ raised self.old.flushes) × (self.new.is_flushed ≡ true)) }
        ensures unflushed { OnErr result (self.new.flushes ≡ self.old.flushes) }
    {
        let flushed = self.inner.flush();
        if flushed.is_err() {
            self.errors = self.errors.saturating_add(1);
        } else {
            self.flushes = self.flushes.saturating_add(1);
            self.is_flushed = true;
        }
        flushed
    }
}
