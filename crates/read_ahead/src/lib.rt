//! Lines read, and their statements numbered, before their turn.
//!
//! `foretell_lines` reads the lines of a piece of some bytes by a catalog: for each where it begins, its length, and a
//! foretold statement, its fault or nothing. `Stretch` has the pieces of the bytes read so far, which threads share:
//! `read_next`, `read_until` and `read_all` read pieces that nobody has taken up, `take` gives what was found in one.
//!
//! What is found holds whatever thread found it and whenever (`Basis` names the bytes and the catalog). Statements
//! reuse the lists of lines that were run.
#![tactic(auto)]

mod ahead;
mod cutting;
mod piece;
mod reading;
mod stretch;

pub use ahead::{Ahead, Found};
pub use cutting::piece_cuts;
pub use piece::Piece;
pub use reading::{MOST_LINES_AHEAD, foretell_lines};
pub use stretch::{Basis, Stretch};
