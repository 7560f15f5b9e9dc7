//! Who holds a privilege before a place, and in which spans of places a user held it.
//!
//! `holders` lists the users whom a grant in force gives a need by name, `is_given_to_all` says whether one to PUBLIC gives it
//! to all; with the table's owner these are all who hold it (`holders_are_all`). `spans` lists when a user held a need;
//! by `spans_tell_of_logs` a place of a log lies in one exactly if its need was held there.
//!
//! Each goes once through the records of a book, and sorts at most the grantees.
#![tactic(auto)]

mod holding;
mod in_force;
mod laws;
mod spanning;

pub use holding::{holders, is_given_to_all};
pub use laws::{holders_are_all, spans_tell_of_logs};
pub use spanning::{Span, spans};
