//! The words of one place, kept in the value itself.

use crate::bits::bits_of;
use crate::coding::{first_detail, outcome_word, outputs_told, second_detail};
use crate::numbering::outputs_of;
use model_base::{Form, MOST_ACCESSES, MOST_COLUMNS, MOST_OUTPUTS, Outcome, Row};
use std::marker::Model;

/// Words of a place: four of its outcome, one for each output, and for each access a cell of one word and one for each column
/// of its row.
pub const MOST_OWN_WORDS: usize = 4 + MOST_OUTPUTS + MOST_ACCESSES * (1 + MOST_COLUMNS);

/// A place's own words, at most `MOST_OWN_WORDS`, kept in the value itself, so that they don't allocate.
#[derive(Clone, Copy)]
pub struct OwnWords {
    len: u8,
    words: [u64; MOST_OWN_WORDS],
}

impl Model for OwnWords {
    ghost use Rattle.std.specs.Prelude.{List, ℕ};

    ghost Value = { List ℕ };

    ghost use Rattle.own_words.specs.Room.{words_in, IsRoomPadded, padded_room, padded_room-undoes};

    ghost view = { words_in };

    ghost invariant = { IsRoomPadded };

    ghost inverse = { padded_room };

    ghost inverse_ok = { padded_room-undoes };
}

impl OwnWords {
    ghost use Rattle.std.specs.Prelude.{◌≡◌, ◌<◌, ◌≤◌, ◌+◌, ◌^◌, ◌++◌, ◌∷◌, [], length, map, replicate};
    ghost use Rattle.std.specs.Option.{ForSome, option_copied};
    ghost use Rattle.model_base.specs.Outcomes.{needs};
    ghost use Rattle.own_words.specs.Words.{bits, header, outputs_of, row_words, second_detail};

    /// No word. It doesn't allocate.
    pub fn new() -> Self
        ensures { result ≡ [] }
    {
        OwnWords {
            len: 0,
            words: [0; MOST_OWN_WORDS],
        }
    }

    /// Takes all words away. It costs what this many words cost, and not what there is room for.
    pub fn clear(&mut self)
        ensures { self.new ≡ [] }
    {
        self.words[..self.len as usize].fill(0);
        self.len = 0;
    }

    /// How many there are.
    pub fn len(&self) -> usize
        ensures { result ≡ length self.now }
    {
        usize::from(self.len)
    }

    /// The words, in order.
    pub fn as_slice(&self) -> &[u64]
        ensures { result.now ≡ self.now }
    {
        &self.words[..self.len as usize]
    }

    /// Appends a word to the others, of which there are fewer than `MOST_OWN_WORDS`. It doesn't allocate.
    pub fn push(&mut self, word: u64)
        requires { length self.old < MOST_OWN_WORDS }
        ensures { self.new ≡ self.old ++ word ∷ [] }
    {
        self.words[self.len as usize] = word;
        self.len += 1;
    }

    /// Appends this many words 0 to the others.
    pub(crate) fn push_zeros(&mut self, count: u8)
        requires { length self.old + count ≤ MOST_OWN_WORDS }
        ensures { self.new ≡ self.old ++ replicate count 0 }
    {
        self.len += count;
    }

    /// Appends a word for each number to the others.
    pub(crate) fn push_numbers(&mut self, numbers: &[i64])
        requires { length self.old + length numbers.now ≤ MOST_OWN_WORDS }
        ensures { self.new ≡ self.old ++ map bits numbers.now }
    {
        for number in numbers {
            self.push(bits_of(*number));
        }
    }

    /// Appends the words 0 to 3 of an outcome of a statement, where no word is yet, and after them its outputs, with 0 in the room for
    /// those that it didn't give. The statement has at most `MOST_OUTPUTS` OUT steps, and the place of a revocation that took a need lies
    /// below 2^64 - 1. A need is known only if it is one of the statement's. It doesn't allocate.
    pub fn put_header(&mut self, form: &Form, outcome: &Outcome)
        requires empty { self.old ≡ [] }
        requires outputs { outputs_of form.now ≤ MOST_OUTPUTS }
        requires needs { length (needs form.now) < 2 ^ 64 }
        requires detail { second_detail outcome.now < 2 ^ 64 }
        ensures { self.new ≡ header form.now outcome.now }
    {
        let outputs = outputs_told(outcome);
        let count = outputs.len() as u8;
        let room = outputs_of(form) as u8;
        self.push(outcome_word(outcome));
        self.push(first_detail(form, outcome));
        self.push(second_detail(outcome));
        self.push(u64::from(count));
        self.push_numbers(outputs.as_slice());
        self.push_zeros(room.saturating_sub(count));
    }

    /// Appends a version cell to the others: the row of a table with this many columns, or that there is none. There has to be room for it,
    /// and a row has a number for each column. It doesn't allocate.
    pub fn push_row(&mut self, columns: u8, row: Option<&Row>)
        requires room { length self.old + (1 + columns) ≤ MOST_OWN_WORDS }
        requires columns { ForSome row (λ numbers. length numbers.now ≡ columns) }
        ensures { self.new ≡ self.old ++ row_words columns (option_copied row.entry) }
    {
        match row {
            Some(row) => {
                self.push(1);
                self.push_numbers(row.as_slice());
            }
            None => {
                self.push(0);
                self.push_zeros(columns);
            }
        }
    }
}
