//! The report of a log, as a definition and as text.
//!
//! `put_outcome`, `put_fault` and `put_refused` append the line of a place, of a faulty line and of a refused one;
//! `put_need`, `put_cause`, `put_records` and `put_numbers` are its parts. The records of an outcome are `records_of`;
//! version 2 spells each with its grantee. `each_text_has_one_report` says that every text has a report and only one,
//! `reports_tell_who_was_denied` what its denials say. A line costs its bytes; on `Err`, out of memory, some of it may
//! have been appended.
#![tactic(auto)]

mod laws;
mod text;

pub use laws::{each_text_has_one_report, reports_tell_who_was_denied};
pub use text::{
    put_cause, put_fault, put_need, put_numbers, put_outcome, put_records, put_refused, records_of,
};
