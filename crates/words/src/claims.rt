//! Who may fill a place: claims, taken by one compare-exchange each, looked at, and given back.

ghost use Rattle.std.specs.Prelude.{◌≡◌, ◌<◌, []};
ghost use Rattle.bohm_core_base.specs.declared.event.Event.TheVariants.{GiveBack};
ghost use Rattle.words.specs.Passes.{IsPassOf, gone_on};
ghost use Rattle.words.specs.Meanings.{ClaimMeans, LookMeans};
ghost use Rattle.words.specs.Views.{Holds, In, IsSettled, KnowsPast, with_event};

use crate::batch_data::BatchData;
use crate::table::{BatchWords, Holding};
use std::marker::Brand;

/// The claim of a place that is free.
pub const FREE: u64 = 0;
/// The claim of a place that a pass holds.
pub const HELD: u64 = 1;
/// The claim of a place that is done.
pub const DONE: u64 = 2;

/// What a claim found.
#[derive(Clone, Copy, Debug)]
pub enum Claimed {
    /// The place was free, and the pass holds it now.
    Won,
    /// A pass holds the place.
    Held,
    /// The place is done.
    Done,
}

/// What a look found.
#[derive(Clone, Copy, Debug)]
pub enum Seen {
    /// Nobody held the place, and it wasn't done.
    Free,
    /// A pass holds the place.
    Held,
    /// The place is done.
    Done,
}

impl<K: BatchData> BatchWords<K> {
    /// Takes a place if it is free: one compare-exchange of its claim, from free to held. The pass knows that every partition has
    /// placed the place. A place that the pass knows done is
    /// found done, and so is one with a deed on a table of a later place of which the pass knows all references done.
    pub fn claim(&self, pass: &mut Holding, index: usize) -> Claimed
        requires same_table { IsPassOf self.now pass.old }
        requires within { index < (K.batch self.now.key).size }
        requires past { KnowsPast (K.batch self.now.key) pass.old.view index }
        ensures same { pass.new ≡ gone_on pass.old pass.new.view }
        ensures tells { ClaimMeans pass.old.number index pass.old.view result pass.new.view }
        ensures known { In index pass.old.view.known → result ≡ Claimed.Done }
        ensures settled { IsSettled (K.batch self.now.key) pass.old.view index → result ≡ Claimed.Done }
    {
        let at = self.claim_at(index);
        let found = self.exchange::<Brand>(&mut pass.seat, at, index);
        match found {
            FREE => Claimed::Won,
            HELD => Claimed::Held,
            _ => Claimed::Done,
        }
    }

    /// One load of a claim. A place that the pass knows done is found done, and so is one with a deed on a table of a later
    /// place of which the pass knows all references done.
    pub fn look(&self, pass: &mut Holding, index: usize) -> Seen
        requires same_table { IsPassOf self.now pass.old }
        requires within { index < (K.batch self.now.key).size }
        ensures same { pass.new ≡ gone_on pass.old pass.new.view }
        ensures tells { LookMeans index pass.old.view result pass.new.view }
        ensures known { In index pass.old.view.known → result ≡ Seen.Done }
        ensures settled { IsSettled (K.batch self.now.key) pass.old.view index → result ≡ Seen.Done }
    {
        let at = self.claim_at(index);
        let found = self.get::<Brand>(&mut pass.seat, at, index, 0);
        match found {
            FREE => Seen::Free,
            HELD => Seen::Held,
            _ => Seen::Done,
        }
    }

    /// Sets the claim of a place that the pass holds, and for which nothing is stored, to free: one store.
    pub fn give_back(&self, pass: &mut Holding, index: usize)
        requires same_table { IsPassOf self.now pass.old }
        requires within { index < (K.batch self.now.key).size }
        requires blank { Holds pass.old.view index 0 [] }
        ensures { pass.new ≡ gone_on pass.old (with_event pass.old.view (GiveBack pass.old.number index)) }
    {
        let at = self.claim_at(index);
        self.put::<Brand>(&mut pass.seat, at, FREE, index, 0);
    }
}
