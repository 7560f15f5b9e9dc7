//! The words that name the places to be explained.

ghost use Rattle.std.specs.Prelude.{◌≡◌, IfOk, map, option_map};
ghost use Rattle.clap.specs.Words.{found_of, rows_of};
ghost use Rattle.command_line.specs.Places.{places_among, places_told};

use crate::options::{MOST_PLACE, number_within};
use clap::ArgMatches;
use model_base::Place;
use std::alloc::{AllocError, Global};

/// The places that some words give, if each is a place within the limits. An error means out of memory.
fn places_told(alloc: Global, words: &[&str]) -> Result<Option<Vec<Place>>, AllocError>
    ensures { IfOk result (λ told. option_map (λ places. places.items) told ≡ places_told (map (λ word. word.now) words.now)) }
{
    let mut places = Vec::new(alloc);
    for word in words {
        match number_within(word, 0, MOST_PLACE) {
            Some(place) => places.push(place)?,
            None => return Ok(None),
        }
    }
    Ok(Some(places))
}

/// The places that the words name, if each is within the limits. An error means out of memory.
pub(crate) fn places_of(
    alloc: Global,
    found: &ArgMatches<'_>,
) -> Result<Option<Vec<Place>>, AllocError>
    ensures { IfOk result (λ told. option_map (λ places. places.items) told ≡ places_among (rows_of (found_of found.now))) }
{
    match found.get_strs("PLACE") {
        Some(words) => places_told(alloc, words),
        None => places_told(alloc, &[]),
    }
}
