//! Why a place was admitted or denied, and the check of an explanation.
//!
//! `explain` returns for a finished place whose statement is kept how each need is held, or was lost: ownership, or the
//! path of grants from the owner (`path_at`). `check` says whether an explanation that anyone hands in is sound by a log
//! and a book; it doesn't allocate and shares nothing with `explain`. `explanations_are_sound` and
//! `accepted_needs_are_held` connect them; `explanations_name_earlier_grants` says what grants an explanation names.
//! Both cost the grants on the paths.
//!
//! After P. P. Griffiths and B. W. Wade, "An Authorization Mechanism for a Relational Database System", ACM TODS 1
//! (1976), and R. Fagin, "On an Authorization Mechanism", ACM TODS 3 (1978).
#![tactic(auto)]

mod checked;
mod checking;
mod explained;
mod explaining;
mod explanation;
mod fault;
mod grant_chains;
mod laws;
mod line;
mod line_laws;
mod needs;
mod path_laws;
mod paths;
mod shown;

pub use checked::{are_sound, explains};
pub use checking::check;
pub use explained::{explain_needs, tells_held};
pub use explaining::explain;
pub use explanation::Explanation;
pub use fault::ExplainFault;
pub use grant_chains::is_chain;
pub use laws::{accepted_needs_are_held, explanations_are_sound, explanations_name_earlier_grants};
pub use line::{Line, Shown};
pub use line_laws::{explained_needs_are_sound, later_deeds_explain_nothing};
pub use path_laws::{places_rise_along_paths, shown_needs_are_sound};
pub use paths::path_at;
pub use shown::{explain_need, is_sound};
