//! Records of grants, and how they are found.
//!
//! `Records` is a view at one place: the grants made before it, each in a slot, with its end if that lies before it
//! too. `next_to`, `next_by` and `next_in_force` return the next slot of a grantee, of a grantor, and of a grant in
//! force to a grantee. `IndexedRecords` has all records in order, `IndexedGrants` grants that a batch may make.
//!
//! A look-up costs the logarithm of the grants of that kind and table to that grantee, in force or in all as is asked,
//! and doesn't allocate. On `Err`, out of memory, the records are as they were.
#![tactic(auto)]

mod entries;
mod force;
mod grantor_set;
mod in_force;
mod index;
mod indexed;
mod indexed_grants;
mod records;
mod side;
mod slot_set;

pub use entries::{
    Creation, End, append_tables, lies_below, records_below, reopened, tables_below,
};
pub use force::{NextBy, NextInForce, later};
pub use index::holder_code;
pub use indexed::IndexedRecords;
pub use indexed_grants::IndexedGrants;
pub use records::{Holder, Records, is_by, is_to};
pub use slot_set::SlotSet;
