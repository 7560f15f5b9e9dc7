//! The words of the command line, and the work that they ask for.
//!
//! `read_words` reads words as a `Command` with its source and settings, each within its limits, or returns the text of
//! a usage fault, of the help or of the version. `do_command` opens the source and has a `Job` do the `Task` that the
//! command asks for; it returns what that returned, or that the file couldn't be opened. `ending` gives the exit status
//! of a fault and where its text goes, which is what it displays. `options.rt` has each option with its limits and default.
#![tactic(auto)]

mod arguments;
mod asking;
mod command_words;
mod options;
mod places;
mod running;
mod sources;
mod subcommands;
mod work;

pub use arguments::argument_fault;
pub use command_words::{
    Command, ProgramFault, Request, Source, Stream, Usage, Verb, ending, read_words,
};
pub use options::{Choice, Limit, Progress, RowsAsked};
pub use running::do_command;
pub use sources::{Opened, Sources};
pub use work::{Job, SeededJob, Task};
