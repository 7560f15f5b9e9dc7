//! Lines read as statements with names, and printed back.
//!
//! `read_into` reads a line of a version into a `LineBuffers`, or returns the line's fault, the first from left to right.
//! `parse_line_in` returns the statement; `print_statement` gives the one line that reads as it. No line reads as two
//! statements (`one_spelling`), and each without a fault reads as one (`every_line_reads`).
//!
//! A line costs its bytes; a step's table and the user's name are first compared with those before. Memory is taken
//! only if the room is too small. A `RawStatement` is made here alone, so it is within the grammar and its limits.
#![tactic(auto)]

mod grantees;
mod kind;
mod laws;
mod line_buffers;
mod parsing;
mod printing;
mod statement;
mod version;

pub use grantees::{GranteesLeft, RawGrantee, RawGrantees};
pub use kind::kind_word;
pub use laws::every_line_reads;
pub use line_buffers::LineBuffers;
pub use line_words::{LineFault, Name, RawAccess};
pub use parsing::{one_spelling, parse_line, parse_line_in, read_into, reads_in_both};
pub use printing::print_statement;
pub use statement::{RawDeed, RawForm, RawStatement, RawStep};
pub use version::{Version, is_heading_line};
