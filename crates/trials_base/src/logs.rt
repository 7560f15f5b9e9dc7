//! Logs of which nothing is dropped.

ghost use Rattle.std.specs.Prelude.{◌≡◌, ◌≤◌, length};
ghost use Rattle.engine.specs.Known.{AreKnown, AreNamed};

use crate::fault::Attempt;
use log_text::{RawStatement, parse_line};
use model_base::Place;
use sequencer::{LogTail, Refused};
use std::alloc::{AllocError, Global};
use std::marker::Model;

/// A log of which nothing is dropped.
#[derive(Drop)]
pub struct WholeLog {
    tail: LogTail,
}

impl Model for WholeLog {
    ghost use Rattle.sequencer.specs.Log.{Accepted};
    ghost use Rattle.trials_base.specs.Undropped.{IsUndropped};

    ghost Value = { Accepted };

    ghost view = { λ log. log.tail.log };

    ghost invariant = { λ log. IsUndropped log.tail };
}

impl WholeLog {
    /// A log without statements.
    pub fn new(alloc: Global) -> Self {
        WholeLog {
            tail: LogTail::new(alloc),
        }
    }

    /// Appends the statement of a line. After an error the log is as it was.
    pub fn push_line(&mut self, alloc: Global, line: &[u8]) -> Attempt<()> {
        let statement = parse_line(alloc, line)?;
        self.push(&statement)?;
        Ok(())
    }

    /// Appends a statement. After an error the log is as it was.
    fn push(&mut self, statement: &RawStatement<'_>) -> Result<Place, Refused> {
        let _dropped = self.tail.dropped();
        self.tail.push(statement)
    }

    /// The log as batches take it.
    pub fn tail(&self) -> &LogTail
        ensures log { result.now.log ≡ self.now }
        ensures whole { result.now.dropped ≡ 0 }
        ensures known { AreKnown self.now.statements }
        ensures named { AreNamed self.now.statements }
    {
        &self.tail
    }

    /// How many statements it has.
    pub fn len(&self) -> Place
        ensures count { result ≡ length self.now.statements }
        ensures most { length self.now.statements ≤ 4294967295 }
    {
        self.tail.len()
    }
}

/// Appends the statements of these lines.
fn push_lines(alloc: Global, log: &mut WholeLog, lines: &[&str]) -> Attempt<()> {
    for line in lines {
        log.push_line(alloc, line.as_bytes())?;
    }
    Ok(())
}

/// The log of these lines.
pub fn log_of(alloc: Global, lines: &[&str]) -> Attempt<WholeLog> {
    let mut log = WholeLog::new(alloc);
    push_lines(alloc, &mut log, lines)?;
    Ok(log)
}

/// A line of a log of places that add: the first creates the table, one for each row sets it to 0, and then each adds 1 to a row and puts
/// out what it then has.
fn adding_line(alloc: Global, number: usize, rows: usize) -> Result<String, AllocError> {
    if number == 0 {
        return String::from_str(alloc, "ann CREATE t 1");
    }
    let row = (number - 1) % rows.max(1);
    if number <= rows {
        return format!(in alloc; "ann RUN t:{row}:I | INSERT t {row} 0");
    }
    format!(in alloc;
        "ann RUN t:{row}:RU | LOAD 0 t {row} 0 | CONST 1 1 | ADD 0 0 1 | STORE t {row} 0 0 | OUT 0"
    )
}

/// The log of this many such lines.
pub fn adding_log(alloc: Global, lines: usize, rows: usize) -> Attempt<WholeLog> {
    let mut log = WholeLog::new(alloc);
    for number in 0..lines {
        let line = adding_line(alloc, number, rows)?;
        log.push_line(alloc, line.as_bytes())?;
    }
    Ok(log)
}
