//! Calls, which are lines of a file, made on a world and printed with what they result in.

use crate::world::World;
use std::alloc::{AllocError, Global};
use std::rt::Files;
use std::sync::Wait;
use std::thread::Threads;
use trials_base::{Attempt, TrialFault, words_of};

/// A call: the first word of a line, what is after it, and the words of that.
#[derive(Clone, Copy)]
pub struct Call<'a> {
    pub verb: &'a str,
    pub rest: &'a str,
    pub words: &'a [&'a str],
}

impl Call<'_> {
    /// A word, or an empty one where there are fewer.
    pub fn word(&self, index: usize) -> &str {
        match self.words.get(index) {
            Some(word) => word,
            None => "",
        }
    }

    /// The number that a word is: 0 where there is no such word, or where it is none.
    pub fn number(&self, index: usize) -> u64 {
        number_in(self.word(index))
    }

    /// The number of 32 bits that a word is, or the greatest.
    pub fn count(&self, index: usize) -> u32 {
        u32::try_from(self.number(index)).unwrap_or(u32::MAX)
    }
}

/// The number that a word is: 0 where it is none.
pub fn number_in(word: &str) -> u64 {
    word.parse::<u64>().unwrap_or(0)
}

/// Whether memory was refused to a call.
pub fn is_refused<T>(made: &Attempt<T>) -> bool {
    match made {
        Ok(_) => false,
        Err(fault) => fault.is_refusal(),
    }
}

/// By what calls are made, and whether each that is refused memory is made again.
pub struct Driver<'a, R> {
    pub rt: &'a R,
    pub alloc: Global,
    pub is_again: bool,
}

/// A text with a number in place of each `#`.
fn numbered(alloc: Global, text: &str, number: u64) -> Result<String, AllocError> {
    let number = format!(in alloc; "{number}")?;
    let mut found = String::new(alloc);
    for (index, part) in text.split('#').enumerate() {
        if index > 0 {
            found.push_str(number.as_str())?;
        }
        found.push_str(part)?;
    }
    Ok(found)
}

impl<'a, R> Driver<'a, R> {
    /// Makes calls by a runtime.
    pub fn new(rt: &'a R, alloc: Global, is_again: bool) -> Self {
        Driver {
            rt,
            alloc,
            is_again,
        }
    }
}

impl<R> Drop for Driver<'_, R> {
    fn drop(self) {
        let Driver {
            rt: _,
            alloc: _,
            is_again: _,
        } = self;
    }
}

impl<R: Files + Threads + Wait + Print + Sync> Driver<'_, R> {
    /// Makes a call. Where that is refused memory and calls are made again, a line says whether all is as before, and it is made again.
    fn make(&self, world: &mut World, call: &Call<'_>) -> Attempt<String> {
        if !self.is_again {
            return world.make(self.rt, self.alloc, call);
        }
        let before = world.picture(self.alloc)?;
        let made = world.make(self.rt, self.alloc, call);
        if !is_refused(&made) {
            return made;
        }
        let is_same = before == world.picture(self.alloc)?;
        println!(self.rt; "{}: refused, as before: {is_same}", call.verb)?;
        world.make(self.rt, self.alloc, call)
    }

    /// Makes the call of a line.
    fn make_line(&self, world: &mut World, line: &str) -> Attempt<String> {
        let words = words_of(self.alloc, line)?;
        let [verb, words @ ..] = words.as_slice() else {
            return Err(TrialFault::NotText);
        };
        let (_, rest) = line.split_once(' ').unwrap_or((line, ""));
        self.make(world, &Call { verb, rest, words })
    }

    /// Makes the calls of a text, which are parted by `; `, with a number in place of each `#`. What the last results in is returned.
    fn make_numbered(&self, world: &mut World, text: &str, number: u64) -> Attempt<String> {
        let text = numbered(self.alloc, text, number)?;
        let mut said = String::new(self.alloc);
        for line in text.as_str().split("; ") {
            said = self.make_line(world, line)?;
        }
        Ok(said)
    }

    /// Makes calls for each number of a range: `FIRST..LAST CALLS`. What the last results in is returned.
    fn make_each(&self, world: &mut World, text: &str) -> Attempt<String> {
        let (range, calls) = text.split_once(' ').ok_or(TrialFault::NotText)?;
        let (first, last) = range.split_once("..").ok_or(TrialFault::NotText)?;
        let mut said = String::new(self.alloc);
        for number in number_in(first)..=number_in(last) {
            said = self.make_numbered(world, calls, number)?;
        }
        Ok(said)
    }

    /// Prints the call of a line, or calls for each number of a range, with what it results in.
    fn print_line(&self, world: &mut World, line: &str) -> Attempt<()> {
        if line.is_empty() || line.starts_with('#') {
            return Ok(());
        }
        let made = match line.strip_prefix("each ") {
            Some(calls) => self.make_each(world, calls),
            None => self.make_line(world, line),
        };
        match made {
            Ok(said) => println!(self.rt; "{line}: {said}")?,
            Err(fault) if fault.is_of_memory() => return Err(fault),
            Err(fault) => println!(self.rt; "{line}: {fault}")?,
        }
        Ok(())
    }

    /// Prints the calls of a text one after another.
    pub fn print_calls(&self, world: &mut World, text: &str) -> Attempt<()> {
        for line in text.split('\n') {
            self.print_line(world, line)?;
        }
        Ok(())
    }
}
