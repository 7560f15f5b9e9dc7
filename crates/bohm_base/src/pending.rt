//! Lines of the report that wait to be written.

ghost use Rattle.std.specs.Prelude.{◌≡◌, ◌≢◌, ◌++◌, IfErr, OnOk};
ghost use Rattle.line_io.specs.Known.{HasBegun, MovesOut};
ghost use Rattle.bohm_base.specs.Faults.{IsFaultInOrder, write_errors};

use line_io::{Counted, EngineFault, write_much};
use std::io::Write;

/// Appends a line to what is pending, and writes what is pending if that is much. Where there is no room for the line, what was pending
/// stays so; after a fault of writing nothing is pending, and a front of it was written.
#[inline(always)]
pub(crate) fn put_out<W: Write>(
    writer: &mut Counted<W>,
    pending: &mut Vec<u8>,
    line: &[u8],
) -> Result<(), EngineFault>
    ensures ok { OnOk result (MovesOut (W.contents writer.old.inner) (W.contents writer.new.inner)
        (pending.old.items ++ line.now) pending.new.items) }
    ensures begun { HasBegun (W.contents writer.old.inner) (W.contents writer.new.inner)
        pending.new.items (pending.old.items ++ line.now) }
    ensures errors { writer.new.errors ≡ write_errors result writer.old.errors }
    ensures flushes { writer.new.flushes ≡ writer.old.flushes }
    ensures err { IfErr result (λ f. f ≢ EngineFault.Read) }
    ensures alone { IfErr result IsFaultInOrder }
{
    pending.extend_from_slice(line)?;
    write_much(writer, pending)?;
    Ok(())
}
