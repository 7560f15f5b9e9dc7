//! How much of a log is read, and how it is shown.

use std::fmt;

/// How progress is shown on standard error.
#[derive(Clone, Copy)]
pub struct ProgressStyle {
    /// Whether it is one line of a terminal, which is written again each time, and not a line of its own each time.
    pub is_one_line: bool,
    /// Whether it is shown at the end in any case, and not only where it was shown before.
    pub is_asked: bool,
}

impl ProgressStyle {
    /// After how many milliseconds it is shown next.
    pub fn pause(self) -> u64 {
        if self.is_one_line { 500 } else { 1000 }
    }
}

/// How much of a log is read, after some milliseconds. Lines are counted in a sample of what was read.
#[derive(Clone, Copy)]
pub struct Reached {
    /// The bytes that were read.
    pub bytes: u64,
    /// The bytes of the sample.
    pub sampled_bytes: u64,
    /// The line feeds of the sample.
    pub sampled_lines: u64,
    /// All bytes of the log, where that is known.
    pub size: Option<u64>,
    /// The milliseconds since reading began.
    pub millis: u64,
}

/// Seconds, as minutes and seconds.
#[derive(Clone, Copy)]
struct Minutes(u64);

impl fmt::Display for Minutes {
    fn fmt<W: fmt::Write>(&self, f: &mut fmt::Formatter<W>) -> fmt::Result {
        let (minutes, seconds) = (self.0 / 60, self.0 % 60);
        write!(f, "{minutes}:{seconds:02}")
    }
}

impl Reached {
    ghost use Rattle.std.specs.Prelude.{◌≡◌, ◌*◌, ◌-◌, ◌/◌, ◌^◌, max, min};

    /// Bytes a second.
    fn speed(&self) -> u64
        ensures { result ≡ min (self.now.bytes * 1000) (2 ^ 64 - 1) / max self.now.millis 1 }
    {
        self.bytes.saturating_mul(1000) / self.millis.max(1)
    }

    /// Lines a second, if there are as many to a byte as in the sample.
    fn rate(&self) -> u64 {
        self.speed().saturating_mul(self.sampled_lines) / self.sampled_bytes.max(1)
    }

    /// How many of a hundred parts of this many bytes are read.
    fn percent(&self, size: u64) -> u64 {
        (self.bytes.saturating_mul(100) / size.max(1)).min(100)
    }

    /// In how many seconds the rest of this many bytes is read, at this speed.
    fn seconds_left(&self, size: u64) -> u64 {
        size.saturating_sub(self.bytes) / self.speed().max(1)
    }
}

impl fmt::Display for Reached {
    fn fmt<W: fmt::Write>(&self, f: &mut fmt::Formatter<W>) -> fmt::Result {
        let rate = self.rate();
        let elapsed = Minutes(self.millis / 1000);
        match self.size {
            Some(size) => {
                let percent = self.percent(size);
                let left = Minutes(self.seconds_left(size));
                write!(f, "{percent:3}%  {rate} lines/s  {elapsed}, {left} left")
            }
            None => {
                let megabytes = self.bytes / 1_000_000;
                write!(f, "{megabytes:3} MB  {rate} lines/s  {elapsed}")
            }
        }
    }
}
