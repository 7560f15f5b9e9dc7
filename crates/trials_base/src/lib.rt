//! What the programs that CI runs share.
//!
//! `log_of` reads the lines of a `WholeLog`, of which nothing is dropped; `before_place` runs the places before one in
//! order, and gives the rows and the book then, and `new_batch` is a range of the log as a batch of which all is placed.
//! `enter`, `give` and `take` make deeds on one table in a book, and `PlainBook` is one without indexes, to compare it
//! with. `read_file` reads a file of cases. `beside` parts what isn't a call's own from what is. On `Err`, what the fault says.
#![tactic(auto)]

mod batches;
mod before;
mod deeds;
mod fault;
mod files;
mod logs;
mod plain_book;
mod rows;

pub use batches::{new_batch, references_of};
pub use before::before_place;
pub use deeds::{TABLE, enter, give, grant_of, revocation_of, take};
pub use fault::{Attempt, TrialFault, beside};
pub use files::{number_of, read_file, text_of, words_of};
pub use logs::{WholeLog, adding_log, log_of};
pub use plain_book::PlainBook;
pub use rows::row_text;
