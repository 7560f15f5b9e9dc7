//! Lines cut off bytes that are available.
ghost use Rattle.std.specs.Prelude.{◌<◌, ◌≤◌, [], List, MatchOption, Option, drop, length, ℕ};
ghost use Rattle.std.specs.Io.KnownBytes.{prepend_known};
ghost use Rattle.line_io.specs.Known.{HadSome, TookLine};
ghost use Rattle.line_io.specs.Lines.{HasLine};

use super::limits::KEPT_BYTES;
use memchr::memchr;

/// The first line of the bytes without its LF, up to `KEPT_BYTES` of it, and how many bytes it takes with its LF. None where
/// no line is whole.
#[inline(always)]
pub fn cut_line(bytes: &[u8]) -> Option<(&[u8], usize)>
    // Whatever is after the bytes, the line is their first one.
    ensures line { MatchOption result (HasLine bytes.now → ⊥) (λ cut. (behind : Option (List ℕ))
        → TookLine (prepend_known bytes.now behind) (prepend_known (drop cut.1 bytes.now) behind) [] cut.0.now
        × HadSome (prepend_known bytes.now behind)) }
    ensures within { MatchOption result (HasLine bytes.now → ⊥) (λ cut. (0 < cut.1) × (cut.1 ≤ length bytes.now)) }
{
    let feed = memchr(b'\n', bytes)?;
    Some((&bytes[..feed.min(KEPT_BYTES)], feed + 1))
}
