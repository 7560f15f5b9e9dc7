//! A batch that no pass can reach any more.

ghost use Rattle.std.specs.Prelude.{◌≡◌, ◌<◌, ◌+◌, suc, length, slice_index, true};
ghost use Rattle.std.specs.Mem.Slots.{slots_len, IsFull};
ghost use Rattle.words.specs.Closing.{HasItsReferences, IsSettledBy, LastWith, claim_in, end_word_in, own_in, reference_in};
ghost use Rattle.words.specs.Layout.{optional_word};
ghost use Rattle.words.specs.Passes.{IsPassOf};

use crate::batch_data::BatchData;
use crate::optional::{index_in, number_in};
use crate::table::{BatchWords, Pass};
use atomic_table::Closed as Stood;
use model_base::Place;
use std::alloc::Global;
use std::marker::Model;

/// The words of a batch as they were when it was closed.
pub struct Closed {
    stood: Stood<u8, Global>,
    begins: Vec<usize>,
    references: Vec<usize>,
    ends: usize,
    ghost full: { IsFull stood.words },
    ghost bare: { slots_len stood.slots ≡ 0 },
}

impl Model for Closed {
    ghost use Rattle.std.specs.Mem.Slots.{slots_items};
    ghost use Rattle.words.specs.Closing.{ClosedLayout};

    ghost Value = { ClosedLayout };

    ghost view = { λ closed. record {
      begins = closed.begins.items;
      references = closed.references.items;
      ends = closed.ends;
      words = slots_items closed.stood.words;
    } };
}

impl<K: BatchData> BatchWords<K> {
    /// The words as they are. Some list of events led to them, with this pass's events in order. Each place whose claim is done has the own
    /// words and the ends of the serial run; of any other place the words are a beginning of the serial run's; and no end is another than
    /// the serial run's. If the pass knows that all is placed, the references are the batch's.
    pub fn close(self, pass: Pass) -> Closed
        requires { IsPassOf self pass }
        ensures last { LastWith (K.batch self.key) (K.listed self.key) result.words pass.number pass.view }
        ensures settled { IsSettledBy (K.batch self.key) (K.listed self.key) result }
        ensures references { pass.view.placed ≡ true → HasItsReferences (K.batch self.key) result }
    {
        let BatchWords {
            table,
            places: _,
            begins,
            references,
            fronts: _,
            ends,
            count: _,
        } = self;
        let Pass {
            seat,
            bodies: _,
            placed: _,
        } = pass;
        let stood = table.close_with(seat);
        Closed {
            stood,
            begins,
            references,
            ends,
        }
    }
}

impl Closed {
    /// The claim of a place: `FREE`, `HELD` by a pass, or `DONE`.
    pub fn claim(&self, index: usize) -> u64
        requires begins { index < length self.now.begins }
        requires within { slice_index self.now.begins index < length self.now.words }
        ensures { result ≡ claim_in self.now index }
    {
        self.stood.word(self.begins[index])
    }

    /// The own word of a number of a place.
    pub fn own(&self, index: usize, number: usize) -> u64
        requires begins { index < length self.now.begins }
        requires within { slice_index self.now.begins index + suc number < length self.now.words }
        ensures { result ≡ own_in self.now index number }
    {
        self.stood.word(self.begins[index] + 1 + number)
    }

    /// The reference of a number of a place: the index of a place, or none for what was there before the batch.
    pub fn reference(&self, index: usize, number: usize) -> Option<usize>
        requires begins { index < length self.now.references }
        requires within { slice_index self.now.references index + number < length self.now.words }
        ensures { optional_word result ≡ reference_in self.now index number }
    {
        let word = self.stood.word(self.references[index] + number);
        index_in(word)
    }

    /// A listed end, if it is set: the place that ended the record.
    pub fn end(&self, end: usize) -> Option<Place>
        requires { self.now.ends + end < length self.now.words }
        ensures { optional_word result ≡ end_word_in self.now end }
    {
        let word = self.stood.word(self.ends + end);
        number_in(word)
    }
}

impl Drop for Closed {
    fn drop(self) {
        let Closed {
            stood,
            begins: _,
            references: _,
            ends: _,
        } = self;
        stood.free();
    }
}
