//! Readers and writers of bytes that count their failures, and lines.
//!
//! `Counted` counts what a reader gives, and failures and flushes. `LineReader::next_line` finds the next line, of
//! which `line` has at most `KEPT_BYTES`; `cut_line` cuts whole lines off what was read ahead, `bytes_ahead`.
//! `write_out` and `write_pending` write all of a piece, or on `Err` a beginning of it. Nothing is tried again: a fault
//! comes only if a count of failures rose, if `MOST_GIVEN_BYTES` were read, or if memory ran out. `MemoryReader` and
//! `MemoryWriter` work in memory and can be made to fail.
//!
//! Only a line over the end of the buffer is copied, and memory is one buffer.
#![tactic(auto)]

mod counted;
mod cutting;
mod fault;
mod laws;
mod limits;
mod line_reader;
mod memory;
mod writing;

pub use counted::Counted;
pub use cutting::cut_line;
pub use fault::{EngineFault, WriteFault};
pub use laws::{lines_laws, writing_laws};
pub use limits::{
    BUFFER_BYTES, FIRST_BUFFER_BYTES, KEPT_BYTES, MOST_GIVEN_BYTES, MOST_LINE_BYTES, PENDING_BYTES,
};
pub use line_reader::LineReader;
pub use memory::{MemoryReader, MemoryWriter};
pub use writing::{PIECE_LEN, flush, write_much, write_out, write_pending};
