//! Who holds a privilege before a place of the text of a log, and when a user held one, as text.
//!
//! `holders_text` writes the table's owner, whom grants give a kind by name, and PUBLIC where it is granted that;
//! `history_text` the spans of places in which a user held it. Each line ends with the path by which the need is held, as
//! `bohm explain` writes it. Each costs the run of the log, up to the place or whole, one pass over its grants, and a path
//! for each line. The text is made before any of it is written, so only a failing writer leaves a part.
#![tactic(auto)]

mod asking;
mod history;
mod holding;
mod listing;
mod running;
mod telling;
mod ways;

pub use asking::{HistoryAsked, HoldersAsked, kind_named};
pub use holding::put_holders;
pub use listing::holders_text;
pub use telling::history_text;
