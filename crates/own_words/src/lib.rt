//! The outcome and rows of a place as words of 64 bits, and back.
//!
//! Words 0 to 3 are the kind of outcome, two details and the number of outputs; then there is room for each output, and
//! a version cell for each access that may change its row: 1 or 0 for a row that is there or absent, and a word for
//! each column. What a revocation ended isn't in the words.
//!
//! `OwnWords` has up to `MOST_OWN_WORDS` in itself. `put_header` and `push_row` write them, `decoded` and `row_of` read
//! them, and `word_at` one of them, of which word 0 is `DONE` or `DENIED` where the outcome is. `decoding_undoes_coding`
//! and `rows_are_told` are the laws. Nothing allocates.
#![tactic(auto)]

mod bits;
mod coding;
mod decoding;
mod laws;
mod numbering;
mod room;

pub use bits::{bits_of, value_of};
pub use coding::{DENIED, DONE};
pub use decoding::{decoded, row_of, word_at, words_after};
pub use laws::{decoding_undoes_coding, lengths, rows_are_told, words_fit};
pub use numbering::outputs_of;
pub use room::{MOST_OWN_WORDS, OwnWords};
