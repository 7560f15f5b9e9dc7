//! Lines read as statements.

mod accesses;
mod computing;
mod deeds;
mod fields;
mod form;
mod granting;
mod line;
mod steps;
mod touching;

pub use line::{one_spelling, parse_line, parse_line_in, read_into, reads_in_both};
