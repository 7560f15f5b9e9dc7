//! Where the pieces of a window begin.

ghost use Rattle.std.specs.Prelude.{◌≡◌, ◌≤◌, ◌<◌, ◌+◌, All, IfOk, length};

use line_io::cut_line;
use std::alloc::{AllocError, Global};

/// The end of the line in which an index of the bytes lies, up to another: the index after the first LF from there on.
fn line_end(bytes: &[u8], from: usize, to: usize) -> usize
    requires order { from ≤ to }
    requires within { to ≤ length bytes.now }
    ensures within { result ≤ to }
    ensures order { from ≤ result }
{
    match cut_line(&bytes[from..to]) {
        Some((_, count)) => from + count,
        None => to,
    }
}

/// Cuts the bytes from one index on and before another into this many pieces of about one length, each but the first after a whole line,
/// where lines are short enough for that. It returns where each begins, and where the last ends.
pub fn piece_cuts(
    alloc: Global,
    bytes: &[u8],
    from: usize,
    to: usize,
    pieces: usize,
) -> Result<Vec<usize>, AllocError>
    requires order { from ≤ to }
    requires within { to ≤ length bytes.now }
    ensures some { IfOk result (λ cuts. 1 < length cuts.items) }
    ensures within { IfOk result (λ cuts. All (λ cut. cut ≤ length bytes.now) cuts.items) }
{
    let step = (to - from) / pieces.max(1);
    let mut cuts = Vec::new(alloc);
    let mut wanted = from;
    let mut last = from;
    cuts.push(from)?;
    'cuts: for _ in 1..pieces {
        wanted = wanted.saturating_add(step);
        last = line_end(bytes, wanted.max(last).min(to), to);
        cuts.push(last)?;
    }
    cuts.push(to)?;
    Ok(cuts)
}
