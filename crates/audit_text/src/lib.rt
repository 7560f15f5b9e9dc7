//! Answers to an auditor's questions about the text of a log.
//!
//! `explain_places` writes why each of some places was admitted or denied, `explain_denied` why each denied place was,
//! both with `checked` where that is asked for. `grants_text` writes the grants in force before a place as a digraph for
//! Graphviz, whose edges are just these (`edges_are_grants_in_force`), `rows_text` the rows. Each runs the log up to the
//! place, and reads no more. Only `explain_denied` writes before the whole answer is made, batch by batch.
//!
//! After P. P. Griffiths and B. W. Wade, "An Authorization Mechanism for a Relational Database System", ACM TODS 1
//! (1976).
#![tactic(auto)]

mod denials;
mod explanation;
mod fault;
mod graph;
mod graph_laws;
mod listing;
mod picturing;
mod places;
mod putting;
mod question;
mod rows;
mod writing;

pub use denials::explain_denied;
pub use explanation::{put_explanation, put_shown};
pub use fault::WorkFault;
pub use graph::{put_graph, put_name, put_place};
pub use graph_laws::edges_are_grants_in_force;
pub use listing::{rows_text, run_before};
pub use picturing::grants_text;
pub use places::{PlacesAsked, explain_places};
pub use question::Question;
pub use rows::put_rows_there;
pub use writing::write_text;
