//! The slow run from text to report, and what lines become.
//!
//! `serial_text` reads a text to its end, runs it by `model::serial` and writes its report; it keeps all statements.
//! After a fault, which comes only if the reader or the writer failed or memory ran out, a beginning of the report was
//! written. `LineOutcome` says what a line became: the heading of version 2, a statement, a fault or a refusal, and `put_lines`
//! appends the report's lines for some of them in any `ReportedLog`. `arguments` gives the words with which a program was started.
#![tactic(auto)]

mod collecting;
mod command_line;
mod grantees;
mod lines;
mod pending;
mod reported_log;
mod serial_log;
mod serial_run;

pub use collecting::{LineOutcome, faulty_line, refused_line};
pub use command_line::arguments;
pub use line_io::EngineFault;
pub use lines::take_text;
pub use reported_log::{ReportedLog, put_finished, put_lines, put_place};
pub use serial_run::serial_text;
