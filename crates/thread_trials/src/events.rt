//! Events as words.

use bohm_core_base::Event;
use std::alloc::Global;
use trials_base::{Attempt, TrialFault, number_of, words_of};

/// The event that words ask for: `place PARTITION`, `claim`, `fill`, `back` or `finish ACTOR INDEX`, `end ACTOR INDEX SLOT`.
fn event_of(words: &[&str]) -> Attempt<Event> {
    let [verb, words @ ..] = words else {
        return Err(TrialFault::NotText);
    };
    let actor = number_of(words, 0)?;
    if *verb == "place" {
        let partition = actor as usize;
        return Ok(Event::Place { partition });
    }
    let index = number_of(words, 1)? as usize;
    match *verb {
        "claim" => Ok(Event::Claim { actor, index }),
        "fill" => Ok(Event::Fill { actor, index }),
        "back" => Ok(Event::GiveBack { actor, index }),
        "finish" => Ok(Event::Finish { actor, index }),
        "end" => {
            let slot = number_of(words, 2)? as usize;
            Ok(Event::End { actor, index, slot })
        }
        _ => Err(TrialFault::NotText),
    }
}

/// The events of a text, and the line of each.
pub fn events_of(alloc: Global, text: &str) -> Attempt<(Vec<&str>, Vec<Event>)> {
    let (mut lines, mut events) = (Vec::new(alloc), Vec::new(alloc));
    for line in text.split('\n') {
        let words = words_of(alloc, line)?;
        if !words.is_empty() {
            events.push(event_of(words.as_slice())?)?;
            lines.push(line)?;
        }
    }
    Ok((lines, events))
}
