//! The types and definitions that all other crates share.
//!
//! `Statement`, `Outcome`, `Grant` and their parts are plain data; `limits.rt` has each limit of a log and of its runs,
//! `HashSeed` where the hashes of a map start. The definitions of `specs/` are what a reader has to believe: who holds
//! which privilege, what a body does, and the outcome of each place. The laws, as `admitted_exactly_when_privileged`
//! and `causes_are_last_losses`, hold of every log; they do nothing when they run.
//!
//! Privileges are those of P. P. Griffiths and B. W. Wade, "An Authorization Mechanism for a Relational Database
//! System", ACM TODS 1 (1976), with the correction of R. Fagin, "On an Authorization Mechanism", ACM TODS 3 (1978).
#![tactic(auto)]

mod deed;
mod deeds;
mod grantees;
mod growing_laws;
mod hash_seed;
mod laws;
mod limits;
mod list;
mod name;
mod needs;
mod outcome;
mod record_laws;
mod reference;
mod row;
mod statement;

pub use deed::{
    Cause, Deed, Grant, Grantee, Kind, Kinds, Need, Position, Record, RecordName, Revocation,
};
pub use deeds::Deeds;
pub use grantees::Grantees;
pub use growing_laws::earlier_places_stand;
pub use hash_seed::HashSeed;
pub use laws::{
    admitted_exactly_when_privileged, causes_are_last_losses, causes_are_revocations,
    deeds_before_are_proper, ended_grants_stay_ended, failures_change_nothing,
    fewer_grants_keep_fewer, grants_end_none, held_needs_have_paths, paths_take_the_earliest,
    places_make_grants_or_one_revocation, public_is_every_user, ranks_follow_places,
    revocations_add_none, statements_make_deeds_in_order,
};
pub use limits::{
    MOST_ACCESSES, MOST_BATCH_STATEMENTS, MOST_COLUMNS, MOST_GRANTEES, MOST_KEPT_BATCHES,
    MOST_NAME_BYTES, MOST_NAMES, MOST_OUTPUTS, MOST_PARTITIONS, MOST_PLACES, MOST_REGISTERS,
    MOST_STEPS, MOST_VALUES, MOST_WORKERS,
};
pub use list::Items;
pub use name::{Place, RowNumber, Table, User};
pub use needs::Needs;
pub use outcome::{DeedDone, Outcome, Reason};
pub use record_laws::{
    causes_are_losses_by_records, covered_records_tell, deeds_change_records,
    earlier_records_are_cut, ends_are_losses, ends_are_revocations, later_owners_change_nothing,
    records_name_grantees, records_rise, records_tell_of_logs, records_tell_what_revocations_end,
    records_were_authorised, unended_records_are_in_force,
};
pub use reference::Reference;
pub use row::{Key, Outputs, Row, Values};
pub use statement::{
    Access, DeedForm, Form, Operation, Register, Registers, RowName, Statement, Step,
};
