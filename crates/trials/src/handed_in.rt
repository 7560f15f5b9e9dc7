//! Explanations that are handed in, right ones and wrong ones.

use crate::driver::{Call, number_in};
use explain::{Explanation, Line, Shown};
use model_base::{Items, Kind, Need, Position, RecordName, Table};
use std::alloc::{AllocError, Global};
use trials_base::{Attempt, TrialFault};

/// The grants of READ of the places that are parted by commas.
fn chain_of(alloc: Global, text: &str) -> Result<Items<RecordName>, AllocError> {
    let mut names = Vec::new(alloc);
    for word in text.split(',') {
        if !word.is_empty() {
            names.push(RecordName {
                place: number_in(word),
                kind: Kind::Read,
                position: Position::First,
            })?;
        }
    }
    Ok(Items::new(names))
}

/// What a word shows: `owner`, `never`, `grants:PLACES` or `taken:PLACE:PLACES`.
fn shown_of(alloc: Global, word: &str) -> Attempt<Shown> {
    let (name, rest) = word.split_once(':').unwrap_or((word, ""));
    match name {
        "owner" => Ok(Shown::Owner),
        "never" => Ok(Shown::Never),
        "grants" => Ok(Shown::Grants(chain_of(alloc, rest)?)),
        "taken" => {
            let (place, places) = rest.split_once(':').unwrap_or((rest, ""));
            Ok(Shown::Taken(number_in(place), chain_of(alloc, places)?))
        }
        _ => Err(TrialFault::NotText),
    }
}

/// A line for a need that shows what a word says.
fn line_of(alloc: Global, need: &Need, word: &str) -> Attempt<Line> {
    let shown = shown_of(alloc, word)?;
    Ok(Line { need: *need, shown })
}

/// An explanation of a place, each of whose lines is for the need to read the first table, and shows what a word says: `PLACE READ
/// SHOWN..`, or `PLACE OPTION SHOWN..`.
pub fn explanation_of(alloc: Global, call: &Call<'_>) -> Attempt<Explanation> {
    let need = Need {
        table: Table(0),
        kind: Kind::Read,
        option: call.word(1) == "OPTION",
    };
    let mut lines = Vec::new(alloc);
    for word in call.words.iter().skip(2) {
        lines.push(line_of(alloc, &need, word)?)?;
    }
    let place = call.number(0);
    Ok(Explanation { place, lines })
}
