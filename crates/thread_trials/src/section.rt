//! Trials as text.
//!
//! A file has the lines of a log, or a line `adding LINES ROWS`, and then trials. A trial is a line `batch FIRST PARTITIONS KIND`, whose
//! batch is the places from one on, and lines of steps.

use model_base::Place;
use std::alloc::Global;
use trials_base::{Attempt, TrialFault, WholeLog, adding_log, log_of, number_of, words_of};

/// What is tried on a batch.
#[derive(Clone, Copy, PartialEq, Eq)]
pub enum Kind {
    /// Steps on words of which all is placed.
    Row,
    /// And then the words are closed and the batch is finished.
    Close,
    /// The same after a pass that stored words of a place that it held and was dropped.
    Stored,
    /// Threads claim all places.
    Claims,
    /// Workers run places of which all is placed.
    Run,
    /// Steps between those of placers.
    Open,
    /// Workers place and run.
    Work,
    /// Rounds of workers.
    Rounds,
    /// Events of the machine, one by one.
    Events,
    /// Events of the machine at once.
    List,
}

/// A trial.
#[derive(Clone, Copy)]
pub struct Section<'a> {
    /// The first place of the batch.
    pub first: Place,
    pub partitions: usize,
    pub kind: Kind,
    /// How many workers there are.
    pub workers: usize,
    pub steps: &'a str,
}

/// The kind of a word.
fn kind_of(word: &str) -> Attempt<Kind> {
    match word {
        "row" => Ok(Kind::Row),
        "close" => Ok(Kind::Close),
        "stored" => Ok(Kind::Stored),
        "claims" => Ok(Kind::Claims),
        "run" => Ok(Kind::Run),
        "open" => Ok(Kind::Open),
        "work" => Ok(Kind::Work),
        "rounds" => Ok(Kind::Rounds),
        "events" => Ok(Kind::Events),
        "list" => Ok(Kind::List),
        _ => Err(TrialFault::NotText),
    }
}

/// Reads a trial, without the word `batch`.
pub fn parse_section(alloc: Global, text: &str) -> Attempt<Section<'_>> {
    let (line, steps) = text.split_once('\n').unwrap_or((text, ""));
    let words = words_of(alloc, line)?;
    let words = words.as_slice();
    Ok(Section {
        first: number_of(words, 0)?,
        partitions: number_of(words, 1)? as usize,
        kind: kind_of(words.get(2).copied().unwrap_or("row"))?,
        workers: if words.len() > 3 {
            number_of(words, 3)? as usize
        } else {
            0
        },
        steps,
    })
}

/// The log of these lines.
pub fn parse_log(alloc: Global, text: &str) -> Attempt<WholeLog> {
    if let Some(counts) = text.strip_prefix("adding ") {
        let words = words_of(alloc, counts)?;
        let (lines, rows) = (
            number_of(words.as_slice(), 0)?,
            number_of(words.as_slice(), 1)?,
        );
        return adding_log(alloc, lines as usize, rows as usize);
    }
    let lines = text.split('\n').collect::<Vec<&str>>(alloc)?;
    log_of(alloc, lines.as_slice())
}
