//! A batch beside its words, and how its passes are cut and joined.

ghost use Rattle.std.specs.Prelude.{◌≡◌, IfOk, false, true};
ghost use Rattle.words.specs.Closing.{HasItsReferences, IsSettledBy, LastWith};
ghost use Rattle.words.specs.Passes.{IsPassOf, cut_first, cut_second, first_pass, joined_pass, open_pass};

use crate::fills::Fills;
use std::alloc::{AllocError, Global};
use std::marker::Model;
use words::{BatchWords, Closed, Pass};

/// A batch and its words.
#[derive(Drop)]
pub struct Batch<K: Fills> {
    pub(crate) key: K,
    pub(crate) words: BatchWords<K>,
    pub(crate) alloc: Global,
}

impl<K: Fills> Model for Batch<K> {
    ghost use Rattle.std.specs.Prelude.{◌≡◌};
    ghost use Rattle.words.specs.Passes.{Words};

    ghost Value = { Words K };

    ghost view = { λ batch. batch.words };

    ghost invariant = { λ batch. batch.words.key ≡ batch.key };
}

impl<K: Fills + Drop> Batch<K> {
    /// The words of the batch, all of which is placed, with all places free, and its first pass. An error means out of memory.
    pub fn new(alloc: Global, key: K) -> Result<(Batch<K>, Pass), AllocError>
        requires { K.placed key ≡ true }
        ensures { IfOk result (λ made. (made.0.key ≡ key) × (made.1 ≡ first_pass made.0)) }
    {
        let (words, pass) = BatchWords::new(alloc, &key)?;
        Ok((Batch { key, words, alloc }, pass))
    }

    /// The words of the batch, of which nothing is placed yet, and its first pass, off which its placers are cut. An error means out of
    /// memory.
    pub fn open(alloc: Global, key: K) -> Result<(Batch<K>, Pass), AllocError>
        requires { K.placed key ≡ false }
        ensures { IfOk result (λ made. (made.0.key ≡ key) × (made.1 ≡ open_pass made.0)) }
    {
        let (words, pass) = BatchWords::open(alloc, &key)?;
        Ok((Batch { key, words, alloc }, pass))
    }
}

impl<K: Fills> Batch<K> {
    /// What the batch is of.
    pub fn key(&self) -> &K
        ensures { result.now ≡ self.now.key }
    {
        let _words = &self.words;
        &self.key
    }

    /// Its words.
    pub fn words(&self) -> &BatchWords<K>
        ensures { result.now ≡ self.now }
    {
        &self.words
    }

    /// Cuts a pass in two: the first goes on and the second begins, and neither is sole.
    pub fn split(&self, pass: Pass) -> (Pass, Pass)
        requires { IsPassOf self.now pass }
        ensures first { result.0 ≡ cut_first pass }
        ensures second { result.1 ≡ cut_second pass result.1.number }
    {
        self.words.split(pass)
    }

    /// Joins two passes: the first goes on, knows what either knew, and keeps the other's events.
    pub fn join(&self, pass: Pass, other: Pass) -> Pass
        requires first { IsPassOf self.now pass }
        requires second { IsPassOf self.now other }
        ensures { result ≡ joined_pass pass other }
    {
        self.words.join(pass, other)
    }

    /// What the batch is of, and its words as they are. Each place whose claim is done has the own words and the ends of the serial run,
    /// and of any other place the words are a beginning of them, also where the pass that held it is gone. If the pass knows that all is
    /// placed, the references are the batch's.
    pub fn close(self, pass: Pass) -> (K, Closed)
        requires { IsPassOf self pass }
        ensures key { result.0 ≡ self.key }
        ensures last { LastWith (K.batch self.key) (K.listed self.key) result.1.words pass.number pass.view }
        ensures settled { IsSettledBy (K.batch self.key) (K.listed self.key) result.1 }
        ensures references { pass.view.placed ≡ true → HasItsReferences (K.batch self.key) result.1 }
    {
        let Batch {
            key,
            words,
            alloc: _,
        } = self;
        (key, words.close(pass))
    }
}
