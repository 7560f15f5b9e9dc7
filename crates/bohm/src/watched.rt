//! A reader that shows on standard error how much was read, and notes why it failed.

ghost use Rattle.std.specs.Prelude.{◌≡◌};

use crate::failing::{Reason, note};
use crate::progress::{ProgressStyle, Reached};
use memchr::memchr_iter;
use std::io;
use std::io::{Eprint, Read};
use std::rt::Clock;

/// From how many milliseconds on progress is shown.
const FIRST_MILLIS: u64 = 1000;

/// Of this many reads the lines of one are counted: to count all would take longer than the hundredth part of a run.
const SAMPLED_READS: u64 = 64;

/// A reader. What was read is shown where there is a view, and in the end when the reader is dropped. Why the last read failed is noted.
pub struct Watched<'a, C: Clock + Eprint, R: Drop> {
    inner: R,
    rt: &'a C,
    view: Option<ProgressStyle>,
    reason: &'a Reason,
    size: Option<u64>,
    reads: u64,
    bytes: u64,
    sampled_bytes: u64,
    sampled_lines: u64,
    /// When reading began, in milliseconds of the clock.
    begun: u64,
    /// When progress is shown next.
    due: u64,
    is_shown: bool,
}

/// The clock's milliseconds, or 0 where it says nothing.
fn millis_of(rt: &impl Clock) -> u64 {
    match rt.monotonic() {
        Ok(now) => now
            .as_secs()
            .saturating_mul(1000)
            .saturating_add(now.subsec_millis() as u64),
        Err(_) => 0,
    }
}

impl<'a, C: Clock + Eprint, R: Drop> Watched<'a, C, R> {
    /// Begins to watch a reader of this many bytes, where that is known.
    pub fn new(
        inner: R,
        rt: &'a C,
        view: Option<ProgressStyle>,
        size: Option<u64>,
        reason: &'a Reason,
    ) -> Self
        ensures { result.inner ≡ inner }
    {
        let begun = if view.is_some() { millis_of(rt) } else { 0 };
        Watched {
            inner,
            rt,
            view,
            reason,
            size,
            reads: 0,
            bytes: 0,
            sampled_bytes: 0,
            sampled_lines: 0,
            begun,
            due: begun.saturating_add(FIRST_MILLIS),
            is_shown: false,
        }
    }

    /// Shows what was read until now.
    fn show(&self, view: ProgressStyle, now: u64, is_end: bool) {
        let reached = Reached {
            bytes: self.bytes,
            sampled_bytes: self.sampled_bytes,
            sampled_lines: self.sampled_lines,
            size: self.size,
            millis: now.saturating_sub(self.begun),
        };
        let rt = self.rt;
        let _ = match (view.is_one_line, is_end) {
            (false, _) => eprintln!(rt; "{reached}"),
            (true, false) => eprint!(rt; "\r{reached}    "),
            (true, true) => eprintln!(rt; "\r{reached}    "),
        };
    }

    /// Takes what was read into the sample.
    fn sample(&mut self, bytes: &[u8])
        ensures { self.new.inner ≡ self.old.inner }
    {
        let lines = memchr_iter(b'\n', bytes).count() as u64;
        self.sampled_bytes = self.sampled_bytes.saturating_add(bytes.len() as u64);
        self.sampled_lines = self.sampled_lines.saturating_add(lines);
    }

    /// Counts what was read, and shows that where it is due.
    fn count(&mut self, view: ProgressStyle, bytes: &[u8])
        ensures { self.new.inner ≡ self.old.inner }
    {
        if self.reads % SAMPLED_READS == 0 {
            self.sample(bytes);
        }
        self.reads = self.reads.saturating_add(1);
        self.bytes = self.bytes.saturating_add(bytes.len() as u64);
        let now = millis_of(self.rt);
        if now >= self.due {
            self.show(view, now, false);
            self.due = now.saturating_add(view.pause());
            self.is_shown = true;
        }
    }

    /// Shows the end, where it was asked for or something was shown before.
    fn end(&self) {
        if let Some(view) = self.view
            && (view.is_asked || self.is_shown)
        {
            self.show(view, millis_of(self.rt), true);
        }
    }
}

impl<'a, C: Clock + Eprint, R: Read + Drop> Read for Watched<'a, C, R> {
    ghost remaining = { λ watched. R.remaining watched.inner };

    fn read(&mut self, buf: &mut [u8]) -> io::Result<usize> {
        let answer = self.inner.read(buf);
        note(self.reason, &answer);
        let count = answer?;
        if let Some(view) = self.view {
            self.count(view, &buf[..count]);
        }
        Ok(count)
    }
}

impl<'a, C: Clock + Eprint, R: Drop> Drop for Watched<'a, C, R> {
    fn drop(self) {
        self.end();
        let Watched {
            inner: _inner,
            rt: _rt,
            view: _view,
            reason: _reason,
            size: _size,
            reads: _reads,
            bytes: _bytes,
            sampled_bytes: _sampled_bytes,
            sampled_lines: _sampled_lines,
            begun: _begun,
            due: _due,
            is_shown: _is_shown,
        } = self;
    }
}
