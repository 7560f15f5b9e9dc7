//! Where the log of a command is read from.

ghost use Rattle.std.specs.Prelude.{◌≡◌, IfOk, IsSome, List, OnErr, Option, ℕ};
ghost use Rattle.batched_text.specs.declared.settings.Arrival.{Arrival};
ghost use Rattle.command_line.specs.Words.{path_of};

use crate::command_words::Source;
use batched_text::Arrival;
use std::io;
use std::io::Read;

/// A log that was opened, and how its bytes arrive.
#[derive(Drop)]
pub struct Opened<L> {
    pub log: L,
    pub arrival: Arrival,
}

/// Standard input and files, of which one is opened and read.
///
/// A type with this trait need not be `Drop`, and `open` takes the value: whoever is given sources opens one of them, and no second one.
/// It is a trait, so that commands are proved for whatever they read, without files.
pub trait Sources {
    /// A reader of the log of a source.
    type Log: Read + Drop;

    // The bytes of the file of a path, or those that standard input still has where there is none, if they are known.
    ghost bytes: { Self → Option (List ℕ) → Option (List ℕ) };
    // How they may arrive.
    ghost arrives: { Self → Option (List ℕ) → Arrival → Type 0 };
    // Whether the file of a path can be refused.
    ghost refuses: { Self → Option (List ℕ) → Type 0 };

    /// Opens a source, which is then read from its first byte on. Fails where a file can't be opened.
    fn open(self, source: Source<'_>) -> io::Result<Opened<Self::Log>>
        ensures bytes { IfOk result (λ opened. Self.Log.remaining opened.log ≡ bytes self (path_of source.entry)) }
        ensures arrival { IfOk result (λ opened. arrives self (path_of source.entry) opened.arrival) }
        ensures refuses { OnErr result (refuses self (path_of source.entry)) }
        ensures input { OnErr result (IsSome (path_of source.entry)) };
}
