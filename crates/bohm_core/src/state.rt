//! The state of a batch.

ghost use Rattle.std.specs.Prelude.{◌≡◌, ◌<◌, ℕ, Some, OnOk, OnErr, length};

use crate::start::{ends_before, free_holds, no_references, no_words, zeros};
use crate::statements::Statements;
use bohm_core_base::Hold;
use model_base::Place;
use std::alloc::{AllocError, Global};
use std::marker::Model;

/// What is stored of a batch: how many places each partition has placed; of each place its references, who holds it and its own words so
/// far; and of each slot the place that ended its record, if one did. An index is that of a place in the batch, from 0; an end is a place
/// of the log. A reference is 0 for what was there before the batch, or else one more than an index.
#[derive(Drop)]
pub struct State {
    fronts: Vec<usize>,
    references: Vec<Vec<usize>>,
    holds: Vec<Hold>,
    own: Vec<Vec<u64>>,
    ends: Vec<Option<Place>>,
}

impl Model for State {
    ghost use Rattle.std.specs.Prelude.{length};
    ghost use Rattle.bohm_core_base.specs.Machine.{State as Contents};
    ghost use Rattle.bohm_core.specs.Storage.{OneEach, lists_of};

    ghost Value = { Contents };

    ghost view = { λ s. record {
      fronts = s.fronts.items;
      references = lists_of s.references.items;
      holds = s.holds.items;
      own = lists_of s.own.items;
      ends = s.ends.items;
    } };

    ghost invariant = { λ s. OneEach (length s.references.items) (length s.holds.items) (length s.own.items) };
}

impl State {
    ghost use Rattle.bohm_core_base.specs.Machine.{all_past, all_ready, end_of, front_of, hold_of, is_ready, own_of, stored_references_of, start, with_hold};
    ghost use Rattle.bohm_core_base.specs.Serial.{is_end};
    ghost use Rattle.std.specs.Prelude.{IfOk, slice_set, ◌++◌, ◌∷◌, [], ◌^◌};
    ghost use Rattle.std.specs.List.{list_all};
    ghost use Rattle.bohm_core.specs.Storage.{has_next_place, with_next_place};

    /// The first state of a batch: nothing is placed, held or stored, and only records of grants before the batch have ends. An error means
    /// out of memory.
    pub fn new<S: Statements>(alloc: Global, statements: &S) -> Result<Self, AllocError>
        ensures { IfOk result (λ state. state ≡ start (S.batch statements.now)) }
    {
        let places = statements.places();
        Ok(State {
            fronts: zeros(alloc, statements.partitions())?,
            references: no_references(alloc, statements, places)?,
            holds: free_holds(alloc, places)?,
            own: no_words(alloc, places)?,
            ends: ends_before(alloc, statements)?,
        })
    }

    /// How many places the batch has.
    pub fn places(&self) -> usize
        ensures value { result ≡ length self.now.holds }
        ensures small { result < 2 ^ 63 }
    {
        self.holds.len()
    }

    /// How many slots there are for records.
    pub fn slots(&self) -> usize
        ensures { result ≡ length self.now.ends }
    {
        self.ends.len()
    }

    /// How many places a partition has placed; past the last partition none.
    pub fn front(&self, partition: usize) -> usize
        ensures { result ≡ front_of self.now partition }
    {
        if partition < self.fronts.len() {
            self.fronts[partition]
        } else {
            0
        }
    }

    /// Who holds a place; past the last one nobody does.
    pub fn hold(&self, index: usize) -> Hold
        ensures { result ≡ hold_of self.now index }
    {
        if index < self.holds.len() {
            self.holds[index]
        } else {
            Hold::Free
        }
    }

    /// The references of a place, first those of its accesses and then those of its tables; those of partitions that haven't
    /// placed it are 0. Past the last place there are none.
    pub fn references(&self, index: usize) -> &[usize]
        ensures { result.now ≡ stored_references_of self.now index }
    {
        if index < self.references.len() {
            &self.references[index]
        } else {
            &[]
        }
    }

    /// The own words of a place so far; past the last place there are none.
    pub fn own(&self, index: usize) -> &[u64]
        ensures { result.now ≡ own_of self.now index }
    {
        if index < self.own.len() {
            &self.own[index]
        } else {
            &[]
        }
    }

    /// The place of the log that ended the record of a slot, if one did; past the last slot none did.
    pub fn end(&self, slot: usize) -> Option<Place>
        ensures { result ≡ end_of self.now slot }
    {
        if slot < self.ends.len() {
            self.ends[slot]
        } else {
            None
        }
    }

    /// Whether a place of the log ended the record of a slot.
    pub fn is_ended_by(&self, slot: usize, place: Place) -> bool
        ensures { result ≡ is_end place (end_of self.now slot) }
    {
        match self.end(slot) {
            Some(end) => end == place,
            None => false,
        }
    }

    /// Whether every partition has placed the place.
    pub fn all_past(&self, index: usize) -> bool
        ensures { result ≡ all_past self.now index }
    {
        self.fronts.iter().all(|front| index < *front)
    }

    /// Whether a reference is to what was there before the batch, or to a place that is done.
    pub fn is_ready(&self, reference: usize) -> bool
        ensures { result ≡ is_ready self.now reference }
    {
        reference == 0 || matches!(self.hold(reference - 1), Hold::Done)
    }

    /// Whether all that the references are to is done.
    fn are_ready(&self, references: &[usize]) -> bool
        ensures { result ≡ list_all (is_ready self.now) references.now }
    {
        references.iter().all(|reference| self.is_ready(*reference))
    }

    /// Whether all that a place refers to is done.
    pub fn all_ready(&self, index: usize) -> bool
        ensures { result ≡ all_ready self.now index }
    {
        self.are_ready(self.references(index))
    }

    /// Whether a partition has a next place.
    pub fn has_next(&self, partition: usize) -> bool
        ensures { result ≡ has_next_place self.now partition }
    {
        partition < self.fronts.len() && self.fronts[partition] < self.references.len()
    }

    /// Changes who holds a place.
    pub(crate) fn set_hold(&mut self, index: usize, hold: Hold)
        requires { index < length self.old.holds }
        ensures { self.new ≡ with_hold self.old index hold }
    {
        self.holds[index] = hold;
    }

    /// Ends the record of a slot by a place of the log.
    pub(crate) fn set_end(&mut self, slot: usize, place: Place)
        requires { slot < length self.old.ends }
        ensures { self.new ≡ record self.old { ends = slice_set self.old.ends slot (Some place) } }
    {
        self.ends[slot] = Some(place);
    }

    /// Stores the next own word of a place. After an error the state is as it was.
    pub(crate) fn push_word(&mut self, index: usize, word: u64) -> Result<(), AllocError>
        requires { index < length self.old.holds }
        ensures ok { OnOk result (self.new ≡ record self.old { own = slice_set self.old.own index (own_of self.old index ++ word ∷ []) }) }
        ensures err { OnErr result (self.new ≡ self.old) }
    {
        let words = &mut self.own[index];
        words.push(word)?;
        Ok(())
    }

    /// Stores the references of a partition's next place.
    pub(crate) fn place_next(&mut self, partition: usize, references: Vec<usize>)
        requires front { partition < length self.old.fronts }
        requires within { front_of self.old partition < length self.old.references }
        ensures { self.new ≡ with_next_place self.old partition references.items }
    {
        let front = self.fronts[partition];
        self.references[front] = references;
        self.fronts[partition] = front + 1;
    }
}
