//! How places are placed, and how a pass finds what is placed: the references of places, and the fronts of partitions.

ghost use Rattle.std.specs.Prelude.{◌≡◌, ◌<◌, ◌+◌, length, false, true};
ghost use Rattle.bohm_core_base.specs.Batch.{reference_words};
ghost use Rattle.words.specs.Layout.{optional_word, partition_at, reference_at};
ghost use Rattle.words.specs.Passes.{IsPassOf, IsPlacerOf, cut_placer, gone_on, placed_on};
ghost use Rattle.words.specs.Meanings.{FrontMeans, StoredAll};
ghost use Rattle.words.specs.Views.{In, KnowsFront, KnowsPast, front_in, with_all_placed, with_cut, with_front, with_placing, with_stored};

use crate::batch_data::BatchData;
use crate::optional::index_in;
use crate::table::{BatchWords, Holding, Pass, Placer};
use std::marker::Brand;

impl Placer {
    /// Its partition.
    pub fn partition(&self) -> usize
        ensures { result ≡ self.now.view.partition }
    {
        self.partition
    }

    /// How many places it has placed, which is the index of the one that it places next.
    pub fn front(&self) -> usize
        ensures { result ≡ front_in self.now.view }
    {
        self.front
    }
}

impl<K: BatchData> BatchWords<K> {
    /// Cuts the placer of a partition off the first pass of a batch of which nothing was placed at first, by one load. The
    /// pass was never split, and it hasn't cut this placer; it stays sole. The placer has placed nothing.
    pub fn cut_placer(&self, pass: Pass, partition: usize) -> (Pass, Placer)
        requires same_table { IsPassOf self.now pass }
        requires within { partition < (K.batch self.now.key).partitions }
        requires sole { pass.view.sole ≡ true }
        requires open { pass.view.placed ≡ false }
        requires uncut { ¬ (In partition pass.view.cut) }
        ensures pass { result.0 ≡ gone_on pass (with_cut pass.view partition) }
        ensures placer { result.1 ≡ cut_placer pass partition result.1.number }
    {
        let Pass {
            mut seat,
            bodies,
            placed,
        } = pass;
        let other = self.cut_placer_off::<Brand>(&mut seat, partition);
        (
            Pass {
                seat,
                bodies,
                placed,
            },
            Placer {
                seat: other,
                partition,
                front: 0,
            },
        )
    }

    /// Stores a reference of the place that the placer places next, into the placer's partition: one store.
    pub fn set_reference(&self, placer: &mut Placer, number: usize, word: u64)
        requires same_table { IsPlacerOf self.now placer.old }
        requires within { front_in placer.old.view < (K.batch self.now.key).size }
        requires number { number < length (reference_words (K.batch self.now.key) (front_in placer.old.view)) }
        requires mine { partition_at (K.batch self.now.key) (front_in placer.old.view) number ≡ placer.old.view.partition }
        requires right { word ≡ reference_at (K.batch self.now.key) (front_in placer.old.view) number }
        ensures { placer.new ≡ placed_on placer.old (with_stored placer.old.view number) }
    {
        let index = placer.front;
        let at = self.reference_spot(index, number);
        self.put::<Brand>(&mut placer.seat, at, word, index, number);
    }

    /// Places the next place for the placer's partition: one store of its front. All references of the place into the partition
    /// are stored.
    pub fn advance(&self, placer: &mut Placer)
        requires same_table { IsPlacerOf self.now placer.old }
        requires partition { placer.old.view.partition < (K.batch self.now.key).partitions }
        requires within { front_in placer.old.view < (K.batch self.now.key).size }
        requires stored { StoredAll (K.batch self.now.key) placer.old.view }
        ensures { placer.new ≡ placed_on placer.old (with_placing placer.old.view) }
    {
        let _places = self.places();
        let front = placer.front + 1;
        let at = self.front_spot(placer.partition);
        self.put::<Brand>(&mut placer.seat, at, front as u64, placer.partition, 0);
        placer.front = front;
    }

    /// How many places a partition has placed: one load of its front. It is past each place that the pass knew it past, and
    /// past each that the pass knows done.
    pub fn front(&self, pass: &mut Holding, partition: usize) -> u64
        requires same_table { IsPassOf self.now pass.old }
        requires within { partition < (K.batch self.now.key).partitions }
        ensures same { pass.new ≡ gone_on pass.old (with_front pass.old.view partition result) }
        ensures tells { FrontMeans (K.batch self.now.key) partition pass.old.view result }
    {
        let at = self.front_spot(partition);
        self.get::<Brand>(&mut pass.seat, at, partition, 0)
    }

    /// One load of a front, after which the pass knows that all is placed: it knew each front past the last place.
    pub fn settle_fronts(&self, pass: &mut Holding, last: usize)
        requires same_table { IsPassOf self.now pass.old }
        requires some { 0 < (K.batch self.now.key).partitions }
        requires last { last + 1 ≡ (K.batch self.now.key).size }
        requires past { KnowsPast (K.batch self.now.key) pass.old.view last }
        ensures { pass.new ≡ gone_on pass.old (with_all_placed pass.old.view) }
    {
        let at = self.front_spot(0);
        let _all = self.get::<Brand>(&mut pass.seat, at, last, 0);
        pass.placed = true;
    }

    /// A reference of a place that the pass knows its partition to have placed: the index of a place, or none for what was there before the
    /// batch. One load.
    pub fn reference(&self, pass: &mut Holding, index: usize, number: usize) -> Option<usize>
        requires same_table { IsPassOf self.now pass.old }
        requires within { index < (K.batch self.now.key).size }
        requires number { number < length (reference_words (K.batch self.now.key) index) }
        requires known { KnowsFront pass.old.view (partition_at (K.batch self.now.key) index number) index }
        ensures same { pass.new ≡ pass.old }
        ensures value { optional_word result ≡ reference_at (K.batch self.now.key) index number }
    {
        let at = self.reference_spot(index, number);
        let word = self.get::<Brand>(&mut pass.seat, at, index, number);
        index_in(word)
    }
}
