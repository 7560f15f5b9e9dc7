//! Writing an answer.

ghost use Rattle.std.specs.Prelude.{◌≡◌, OnErr, OnOk, true};
ghost use Rattle.std.specs.Io.KnownBytes.{Appends};
ghost use Rattle.line_io.specs.Known.{AppendsFront, raised};

use line_io::{Counted, WriteFault, flush, write_out, writing_laws};
use std::io::Write;

/// Writes a text, and flushes the writer. After an error a front of the text was written.
pub fn write_text<W: Write>(writer: &mut Counted<W>, text: &[u8]) -> Result<(), WriteFault>
    ensures ok { OnOk result (Appends (W.contents writer.old.inner) (W.contents writer.new.inner) text.now) }
    ensures front { AppendsFront (W.contents writer.old.inner) (W.contents writer.new.inner) text.now }
    ensures same { OnOk result (writer.new.errors ≡ writer.old.errors) }
    ensures err { OnErr result (writer.new.errors ≡ raised writer.old.errors) }
    ensures flushed { OnOk result ((writer.new.flushes ≡ raised writer.old.flushes) × (writer.new.is_flushed ≡ true)) }
{
    writing_laws();
    write_out(writer, text)?;
    flush(writer)?;
    Ok(())
}
