//! The words of a line: names, numbers, steps and accesses.
//!
//! `Words` gives the pieces between single spaces. `next_name`, `next_number`, `next_step`, `next_access` and the like
//! take a word of the usual form where it is, in one pass over its bytes; if they find none, the words are as they
//! were, and the caller cuts the next word and judges it. `Name` is a slice of its line, and `plain_value`,
//! `whole_value` and `access_of` read the one spelling that a value has. `LineFault` says why a line is no statement.
//!
//! Nothing here allocates.
#![tactic(auto)]

mod access;
mod fault;
mod name;
mod number;
mod piece_list;
mod step_name;
mod word_list;

pub use access::{RawAccess, access_of};
pub use fault::LineFault;
pub use name::{Name, has_name_form};
pub use number::{plain_value, whole_value};
pub use piece_list::Pieces;
pub use step_name::StepName;
pub use word_list::{Words, same_text};
