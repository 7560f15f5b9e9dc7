//! What holds of every line.
ghost use Rattle.std.specs.Prelude.{◌≡◌, ℕ, List, None};
ghost use Rattle.log_text.specs.Fault.{fault_in};
ghost use Rattle.log_text.specs.Statement.{Sentence, ReadsIn};

use crate::version::Version;

/// A line without a fault reads as a statement.
pub fn every_line_reads(version: Version)
    ensures { (line : List ℕ) → fault_in version line ≡ None → (sentence : Sentence) × ReadsIn version line sentence }
{}
