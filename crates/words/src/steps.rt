//! A step on one word, and where each word lies.

ghost use Rattle.std.specs.Prelude.{◌≡◌, ◌==◌, ◌<◌, ℕ, [], false, length};
ghost use Rattle.bohm_core_base.specs.Batch.{reference_words, words_length};
ghost use Rattle.atomic_table.specs.Table.{Allows, Splits, step};
ghost use mathlib.Core.Option.{none};
ghost use prog.Atomic.{either};
ghost use Rattle.words.specs.Legal.{table_rule};
ghost use Rattle.words.specs.Layout.{claim_word, end_word, front_word, own_word, position, reference_word};
ghost use Rattle.words.specs.Views.{joined, split_left, split_right};

use crate::batch_data::BatchData;
use crate::claims::{FREE, HELD};
use crate::knowledge::Knowledge;
use crate::table::{BatchWords, Rule};
use atomic_table::{Play, Seat, Shared, Split};
use std::marker::Brand;

// What a step means is a type M that the caller's proof picks, by the place and the number that are passed for it alone.
impl<K: BatchData> BatchWords<K> {
    // What threads share of the table, which has a word.
    pub(crate) fn shared(&self) -> &Shared<u8, Knowledge, K, Rule>
        ensures same { self.now ≡ record { table = result.now.table_id; key = result.now.key } }
        ensures some { 0 < result.now.table_id.words }
    {
        &self.table.shared
    }

    // How many places the batch has.
    pub(crate) fn places(&self) -> usize
        ensures { result ≡ (K.batch self.now.key).size }
    {
        self.places
    }

    // Cuts a seat in two, by one load.
    pub(crate) fn cut_off(&self, seat: &mut Seat<u8, Knowledge>) -> Seat<u8, Knowledge>
        requires same_table { seat.old.table_id ≡ self.now.table }
        requires alive { seat.old.me.0.spent ≡ false }
        requires pass { seat.old.me.0.placer ≡ false }
        ensures same { (seat.new.table_id ≡ seat.old.table_id) × (seat.new.id ≡ seat.old.id) × (result.table_id ≡ seat.old.table_id) }
        ensures first { seat.new.me ≡ (split_left seat.old.me.0, seat.old.me.1) }
        ensures second { result.me ≡ (split_right seat.old.me.0, []) }
    {
        self.shared().split_seat::<Brand>(seat)
    }

    // Cuts a seat of the placer of a partition off, by one load.
    pub(crate) fn cut_placer_off<M: Split<Knowledge>>(
        &self,
        seat: &mut Seat<u8, Knowledge>,
        _partition: usize,
    ) -> Seat<u8, Knowledge>
        requires same_table { seat.old.table_id ≡ self.now.table }
        requires splits { Splits (table_rule (K.batch self.now.key) (K.listed self.now.key))
            seat.old.id seat.old.me.0 (M.left seat.old.me.0) (M.right seat.old.me.0) }
        ensures same { (seat.new.table_id ≡ seat.old.table_id) × (seat.new.id ≡ seat.old.id) × (result.table_id ≡ seat.old.table_id) }
        ensures first { seat.new.me ≡ (M.left seat.old.me.0, seat.old.me.1) }
        ensures second { result.me ≡ (M.right seat.old.me.0, []) }
    {
        self.shared().split_seat::<M>(seat)
    }

    // The first seat, which takes the other in, by one load.
    pub(crate) fn take_in(
        &self,
        mut seat: Seat<u8, Knowledge>,
        other: Seat<u8, Knowledge>,
    ) -> Seat<u8, Knowledge>
        requires same_table { (seat.table_id ≡ self.now.table) × (other.table_id ≡ self.now.table) }
        requires bare { other.me.1 ≡ [] }
        requires alive { (seat.me.0.spent ≡ false) × (other.me.0.spent ≡ false) }
        requires pass { (seat.me.0.placer ≡ false) × (other.me.0.placer ≡ false) }
        ensures same { (result.table_id ≡ seat.table_id) × (result.id ≡ seat.id) }
        ensures view { result.me ≡ (joined seat.me.0 other.id other.me.0, seat.me.1) }
    {
        self.shared().join_seat::<Brand>(&mut seat, other);
        seat
    }

    // A compare-exchange from free to held.
    pub(crate) fn exchange<M: Play<u8, Knowledge>>(
        &self,
        seat: &mut Seat<u8, Knowledge>,
        at: usize,
        _index: usize,
    ) -> u64
        requires same_table { seat.old.table_id ≡ self.now.table }
        requires within { at < self.now.table.words }
        requires allows { Allows (table_rule (K.batch self.now.key) (K.listed self.now.key))
            self.now.table.slots seat.old.id seat.old.me at
            (λ found. either (found == 0) 1 found)
            (M.then (step self.now.table.slots at 0 1 none) seat.old.me) }
        ensures same { (seat.new.table_id ≡ seat.old.table_id) × (seat.new.id ≡ seat.old.id) }
        ensures then { M.then (step self.now.table.slots at 0 1 none) seat.old.me result seat.new.me }
    {
        self.shared().compare_exchange::<M>(seat, at, FREE, HELD)
    }

    // A store.
    pub(crate) fn put<M: Play<u8, Knowledge>>(
        &self,
        seat: &mut Seat<u8, Knowledge>,
        at: usize,
        word: u64,
        _index: usize,
        _number: usize,
    )
        requires same_table { seat.old.table_id ≡ self.now.table }
        requires within { at < self.now.table.words }
        requires allows { Allows (table_rule (K.batch self.now.key) (K.listed self.now.key))
            self.now.table.slots seat.old.id seat.old.me at
            (λ _. word) (λ _. M.then (step self.now.table.slots at word 0 none) seat.old.me word) }
        ensures same { (seat.new.table_id ≡ seat.old.table_id) × (seat.new.id ≡ seat.old.id) }
        ensures then { M.then (step self.now.table.slots at word 0 none) seat.old.me word seat.new.me }
    {
        self.shared().store::<M>(seat, at, word);
    }

    // A load.
    pub(crate) fn get<M: Play<u8, Knowledge>>(
        &self,
        seat: &mut Seat<u8, Knowledge>,
        at: usize,
        _index: usize,
        _number: usize,
    ) -> u64
        requires same_table { seat.old.table_id ≡ self.now.table }
        requires within { at < self.now.table.words }
        requires allows { Allows (table_rule (K.batch self.now.key) (K.listed self.now.key))
            self.now.table.slots seat.old.id seat.old.me at
            (λ found. found)
            (M.then (step self.now.table.slots at 0 0 none) seat.old.me) }
        ensures same { (seat.new.table_id ≡ seat.old.table_id) × (seat.new.id ≡ seat.old.id) }
        ensures then { M.then (step self.now.table.slots at 0 0 none) seat.old.me result seat.new.me }
    {
        self.shared().load::<M>(seat, at)
    }

    // Where the claim of a place lies: first in its block.
    pub(crate) fn claim_at(&self, index: usize) -> usize
        requires { index < (K.batch self.now.key).size }
        ensures value { result ≡ position (K.batch self.now.key) (claim_word index) }
        ensures within { result < self.now.table.words }
    {
        self.begins[index]
    }

    // Where an own word lies: after the claim.
    pub(crate) fn own_at(&self, index: usize, number: usize) -> usize
        requires within { (index < (K.batch self.now.key).size) × (number < words_length (K.batch self.now.key) index) }
        ensures value { result ≡ position (K.batch self.now.key) (own_word index number) }
        ensures within { result < self.now.table.words }
    {
        self.begins[index] + 1 + number
    }

    // Where a reference lies.
    pub(crate) fn reference_spot(&self, index: usize, number: usize) -> usize
        requires within { (index < (K.batch self.now.key).size) × (number < length (reference_words (K.batch self.now.key) index)) }
        ensures value { result ≡ position (K.batch self.now.key) (reference_word index number) }
        ensures within { result < self.now.table.words }
    {
        self.references[index] + number
    }

    // Where the front of a partition lies.
    pub(crate) fn front_spot(&self, partition: usize) -> usize
        requires { partition < (K.batch self.now.key).partitions }
        ensures value { result ≡ position (K.batch self.now.key) (front_word partition) }
        ensures within { result < self.now.table.words }
    {
        self.fronts + partition * 8
    }

    // Where a listed end lies.
    pub(crate) fn end_at(&self, end: usize) -> usize
        requires { end < length (K.listed self.now.key) }
        ensures value { result ≡ position (K.batch self.now.key) (end_word end) }
        ensures within { result < self.now.table.words }
    {
        self.ends + end
    }
}
