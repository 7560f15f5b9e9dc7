//! Writers that count lines.

ghost use Rattle.std.specs.Prelude.{◌≡◌, ◌++◌, [], ℕ, IfSome, MatchResult, None, Some, if◌then◌else◌, is_some, length, option_map, take};
ghost use Rattle.std.specs.Io.{WritesAtMost};
ghost use Rattle.std.specs.Io.KnownBytes.{Keeps, WriteAppends};
ghost use Rattle.summary.specs.Given.{given_to};
ghost use Rattle.summary.specs.Handed.{counted_by};
ghost use Rattle.summary.specs.Tallied.{AreCountsOf};

use crate::counting::Counting;
use crate::counts::Counts;
use std::io;
use std::io::Write;

/// Takes all that is written, and keeps the counts of it alone.
impl Write for Counting {
    ghost contents = { λ counting. Some (given_to counting) };

    fn write(&mut self, buf: &[u8]) -> io::Result<usize> {
        self.take(buf);
        Ok(buf.len())
    }

    fn flush(&mut self) -> io::Result<()> {
        Ok(())
    }
}

/// Counts the lines that end in these bytes, where lines are counted.
fn count_if(counting: &mut Option<Counting>, bytes: &[u8])
    ensures { counted_by counting.new ≡ option_map (λ text. text ++ bytes.now) (counted_by counting.old) }
{
    if let Some(counting) = counting {
        counting.take(bytes);
    }
}

/// A writer that counts, where that is asked for, the whole lines of what its inner writer took.
#[derive(Drop)]
pub struct Tally<W> {
    inner: W,
    counting: Option<Counting>,
}

impl<W> Tally<W> {
    ghost use Rattle.summary.specs.Handed.{handed_on};

    /// Counts from now on, or never.
    pub fn new(inner: W, is_counting: bool) -> Tally<W>
        ensures inner { result.inner ≡ inner }
        ensures none { handed_on result ≡ (if is_counting then Some [] else None) }
    {
        Tally {
            inner,
            counting: is_counting.then(Counting::new),
        }
    }

    /// The counts of the whole lines of what was taken, where lines are counted.
    pub fn counts(&self) -> Option<&Counts>
        ensures counts { IfSome result (λ counts. IfSome (handed_on self.now) (λ text. AreCountsOf text counts.now)) }
        ensures counting { is_some result ≡ is_some (handed_on self.now) }
    {
        match &self.counting {
            Some(counting) => Some(counting.counts()),
            None => None,
        }
    }
}

impl<W: Write> Write for Tally<W> {
    ghost use Rattle.summary.specs.Handed.{handed_on};

    ghost contents = { λ tally. W.contents tally.inner };

    /// Writes, and counts the lines of the bytes that were taken.
    fn write(&mut self, buf: &[u8]) -> io::Result<usize>
        ensures bound { WritesAtMost result buf.now }
        ensures bytes { WriteAppends (W.contents self.old.inner) (W.contents self.new.inner) result buf.now }
        ensures counted { WriteAppends (handed_on self.old) (handed_on self.new) result buf.now }
    {
        let count = self.inner.write(buf)?;
        count_if(&mut self.counting, &buf[..count]);
        Ok(count)
    }

    fn flush(&mut self) -> io::Result<()>
        ensures bytes { Keeps (W.contents self.old.inner) (W.contents self.new.inner) }
        ensures counted { handed_on self.new ≡ handed_on self.old }
    {
        self.inner.flush()
    }
}
