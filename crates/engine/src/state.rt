//! What is before a place of a log.

use crate::remembering::RememberingBook;
use chains::Chains;

/// What is before a place of a log: the versions of rows and the book of grants.
#[derive(Drop)]
pub struct RunState {
    pub chains: Chains,
    pub book: RememberingBook,
}
