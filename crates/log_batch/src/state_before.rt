//! What is before a range of a log.

use chains::Chains;
use grants::Book;

/// What is before a place of a log: the versions of rows, and the book of grants.
#[derive(Clone, Copy)]
pub struct StateBefore<'a> {
    pub chains: &'a Chains,
    pub book: &'a Book,
}
