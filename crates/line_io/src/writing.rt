//! Writing that tries no piece again, and gathers bytes so that few pieces are written.
ghost use Rattle.std.specs.Prelude.{◌≡◌, ◌<◌, ◌≤◌, [], IsOk, OnOk, OnErr, true, vec_len};
ghost use Rattle.std.specs.Io.KnownBytes.{Keeps, Appends};
ghost use Rattle.line_io.specs.Known.{raised, AppendsFront, MovesOut};

use super::counted::Counted;
use super::fault::WriteFault;
use std::io::Write;

/// From how many pending bytes on `write_much` writes them.
pub const PIECE_LEN: usize = 65_000;

#[tactic(auto, using(crate::proofs::Written::appends_none, crate::proofs::Written::appends_more, crate::proofs::Written::appends_all))]
/// Writes the bytes. A failed piece is not tried again, and after an error a front of the bytes
/// was written.
pub fn write_out<W: Write>(writer: &mut Counted<W>, bytes: &[u8]) -> Result<(), WriteFault>
    ensures ok { OnOk result (Appends (W.contents writer.old.inner) (W.contents writer.new.inner)
        bytes.now) }
    ensures front { AppendsFront (W.contents writer.old.inner) (W.contents writer.new.inner)
        bytes.now }
    ensures same { OnOk result (writer.new.errors ≡ writer.old.errors) }
    ensures err { OnErr result (writer.new.errors ≡ raised writer.old.errors) }
    ensures flushes { writer.new.flushes ≡ writer.old.flushes }
{
    let mut done = 0;
    while done < bytes.len() {
        match writer.write(&bytes[done..]) {
            Ok(0) => return Err(WriteFault),
            Ok(n) => done += n,
            Err(_) => return Err(WriteFault),
        }
    }
    Ok(())
}

#[tactic(auto, using(crate::proofs::Written::appends_none))]
/// Writes what is pending. Nothing is pending after it, even at an error, at which a front of it
/// was written.
pub fn write_pending<W: Write>(
    writer: &mut Counted<W>,
    pending: &mut Vec<u8>,
) -> Result<(), WriteFault>
    ensures ok { OnOk result (Appends (W.contents writer.old.inner) (W.contents writer.new.inner)
        pending.old.items) }
    ensures front { AppendsFront (W.contents writer.old.inner) (W.contents writer.new.inner)
        pending.old.items }
    ensures empty { pending.new.items ≡ [] }
    ensures same { OnOk result (writer.new.errors ≡ writer.old.errors) }
    ensures err { OnErr result (writer.new.errors ≡ raised writer.old.errors) }
    ensures flushes { writer.new.flushes ≡ writer.old.flushes }
{
    let written = write_out(writer, pending.as_slice());
    pending.clear();
    written
}

#[tactic(auto, using(crate::proofs::Written::moved_all, crate::proofs::Written::moved_none))]
/// Writes what is pending if that is `PIECE_LEN` bytes or more. Nothing is pending after an error,
/// at which a front of it was written.
pub fn write_much<W: Write>(
    writer: &mut Counted<W>,
    pending: &mut Vec<u8>,
) -> Result<(), WriteFault>
    ensures ok { OnOk result (MovesOut (W.contents writer.old.inner) (W.contents writer.new.inner)
        pending.old.items pending.new.items) }
    ensures front { AppendsFront (W.contents writer.old.inner) (W.contents writer.new.inner)
        pending.old.items }
    ensures few { vec_len pending.old < PIECE_LEN
        → IsOk result × (pending.new.items ≡ pending.old.items) }
    ensures much { PIECE_LEN ≤ vec_len pending.old → pending.new.items ≡ [] }
    ensures empty { OnErr result (pending.new.items ≡ []) }
    ensures same { OnOk result (writer.new.errors ≡ writer.old.errors) }
    ensures err { OnErr result (writer.new.errors ≡ raised writer.old.errors) }
    ensures flushes { writer.new.flushes ≡ writer.old.flushes }
{
    if pending.len() < PIECE_LEN {
        return Ok(());
    }
    write_pending(writer, pending)?;
    Ok(())
}

/// Flushes the writer, whose contents stay as they are.
pub fn flush<W: Write>(writer: &mut Counted<W>) -> Result<(), WriteFault>
    ensures bytes { Keeps (W.contents writer.old.inner) (W.contents writer.new.inner) }
    ensures same { OnOk result (writer.new.errors ≡ writer.old.errors) }
    ensures err { OnErr result (writer.new.errors ≡ raised writer.old.errors) }
    ensures flushed { OnOk result ((writer.new.flushes ≡ raised writer.old.flushes) × (writer.new.is_flushed ≡ true)) }
    ensures unflushed { OnErr result (writer.new.flushes ≡ writer.old.flushes) }
{
    writer.flush().map_err(|_| WriteFault)
}
