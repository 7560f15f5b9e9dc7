//! The beginning of a line whose end is still to come.

ghost use Rattle.std.specs.Prelude.{◌≡◌, ◌++◌, ℕ, List, OnErr, OnOk, length, take};
ghost use Rattle.line_io.specs.declared.limits.TheConstants.{KEPT_BYTES};

use line_io::KEPT_BYTES;
use std::alloc::AllocError;

/// Appends the further bytes of a line to those that are kept of it, which are its first `KEPT_BYTES`. On `Err`, out of memory,
/// none was appended.
pub(crate) fn keep_more(kept: &mut Vec<u8>, bytes: &[u8]) -> Result<(), AllocError>
    ensures ok { OnOk result ((line : List ℕ) → kept.old.items ≡ take KEPT_BYTES line
        → kept.new.items ≡ take KEPT_BYTES (line ++ bytes.now)) }
    ensures front { OnOk result (take (length kept.old.items) kept.new.items ≡ kept.old.items) }
    ensures err { OnErr result (kept.new.items ≡ kept.old.items) }
{
    let room = KEPT_BYTES.saturating_sub(kept.len());
    let count = room.min(bytes.len());
    kept.extend_from_slice(&bytes[..count])?;
    Ok(())
}
