//! How the words of a batch and its passes are made, cut and joined.

ghost use Rattle.std.specs.Prelude.{◌≡◌, ◌≤◌, ◌+◌, ◌*◌, ◌/◌, ◌^◌, ◌∷◌, [], false, true, length, replicate, IfOk};
ghost use Rattle.bohm_core_base.specs.Batch.{IsSoundBatch};
ghost use Rattle.words.specs.Layout.{block_begin, end_begin, front_begin, total};
ghost use Rattle.words.specs.Legal.{legal};
ghost use Rattle.words.specs.Passes.{AreBlocks, AreReferences, IsPassOf, begun_pass, cut_first, cut_second, first_pass, joined_pass, open_pass};
ghost use Rattle.words.specs.Views.{first_view};
ghost use Rattle.words.specs.Written.{IsWritten};

use crate::batch_data::{BatchData, MOST_WORDS_OF_A_PLACE};
use crate::table::{BatchWords, Pass};
use crate::written::{write_all_references, write_fronts};
use atomic_table::Table;
use std::alloc::{AllocError, Global};

/// How many words the block of a place with this many own words has: its claim, these, and as many more as make whole groups of eight. A
/// line of a processor's cache mostly has eight words.
fn block_length(words: usize) -> usize
    requires { words ≤ MOST_WORDS_OF_A_PLACE }
    ensures value { result ≡ (words / 8 + 1) * 8 }
    ensures few { result ≤ 2 ^ 8 }
{
    let groups = words / 8 + 1;
    groups * 8
}

/// Where the block of each place begins, and where the references begin.
fn blocks<K: BatchData>(alloc: Global, key: &K) -> Result<(Vec<usize>, usize), AllocError>
    ensures begins { IfOk result (λ found. AreBlocks (K.batch key.now) found.0.items found.1) }
    ensures few { IfOk result (λ found. found.1 ≤ 2 ^ 40) }
{
    let places = key.places();
    let mut begins = Vec::with_capacity(alloc, places)?;
    let mut ends = 0;
    for index in 0..places {
        begins.push_reserved(ends);
        ends += block_length(key.words_length(index));
    }
    Ok((begins, ends))
}

/// Where the references of each place begin, and where the fronts begin.
fn references<K: BatchData>(
    alloc: Global,
    key: &K,
    begin: usize,
) -> Result<(Vec<usize>, usize), AllocError>
    requires begin { begin ≡ block_begin (K.batch key.now) (K.batch key.now).size }
    requires few { begin ≤ 2 ^ 40 }
    ensures begins { IfOk result (λ found. AreReferences (K.batch key.now) found.0.items found.1) }
    ensures few { IfOk result (λ found. found.1 ≤ 2 ^ 41) }
{
    let places = key.places();
    let mut begins = Vec::with_capacity(alloc, places)?;
    let mut end = begin;
    for index in 0..places {
        begins.push_reserved(end);
        end += key.references_length(index);
    }
    Ok((begins, end))
}

/// Where the ends begin: after the fronts, each of which has a group of eight words for itself, so that who stores one leaves the others'
/// lines alone.
fn fronts_end<K: BatchData>(key: &K, begin: usize) -> usize
    requires begin { begin ≡ front_begin (K.batch key.now) }
    requires few { begin ≤ 2 ^ 41 }
    ensures end { result ≡ end_begin (K.batch key.now) }
    ensures few { result ≤ 2 ^ 42 }
{
    begin + key.partitions() * 8
}

/// A row of this many words, all 0.
fn all_zero(alloc: Global, count: usize) -> Result<Vec<u64>, AllocError>
    ensures { IfOk result (λ row. row.items ≡ replicate count 0) }
{
    Vec::from_elem(alloc, 0u64, count)
}

/// The words of a batch of which all is placed: the references of all places and all fronts are stored, and the others are 0.
fn placed_row<K: BatchData>(
    alloc: Global,
    key: &K,
    references: &[usize],
    fronts: usize,
    count: usize,
) -> Result<Vec<u64>, AllocError>
    requires placed { K.placed key.now ≡ true }
    requires begins { AreReferences (K.batch key.now) references.now fronts }
    requires count { count ≡ total (K.batch key.now) (K.listed key.now) }
    ensures { IfOk result (λ row.
        IsWritten (K.batch key.now) (K.listed key.now) row.items (K.batch key.now).size 0 (K.batch key.now).partitions) }
{
    let mut row = all_zero(alloc, count)?;
    write_all_references(key, row.as_mut_slice(), references, fronts);
    write_fronts(key, row.as_mut_slice(), fronts);
    Ok(row)
}

/// The row with which a batch begins: such a row if all is placed, and else all 0. The ends begin after all else.
fn first_row<K: BatchData>(
    alloc: Global,
    key: &K,
    placed: bool,
    references: &[usize],
    fronts: usize,
    ends: usize,
) -> Result<Vec<u64>, AllocError>
    requires sound { IsSoundBatch (K.batch key.now) }
    requires placed { K.placed key.now ≡ placed }
    requires begins { AreReferences (K.batch key.now) references.now fronts }
    requires end { ends ≡ end_begin (K.batch key.now) }
    requires few { ends ≤ 2 ^ 42 }
    ensures length { IfOk result (λ row. length row.items ≡ total (K.batch key.now) (K.listed key.now)) }
    ensures legal { IfOk result (λ row. legal (K.batch key.now) (K.listed key.now) row.items (first_view placed ∷ [])) }
{
    let count = ends + key.ends();
    if placed {
        placed_row(alloc, key, references, fronts, count)
    } else {
        all_zero(alloc, count)
    }
}

/// The words of a batch by whether all is placed, and its first pass.
fn begun<K: BatchData>(
    alloc: Global,
    key: &K,
    placed: bool,
) -> Result<(BatchWords<K>, Pass), AllocError>
    requires { K.placed key.now ≡ placed }
    ensures { IfOk result (λ made. (made.0.key ≡ key.now) × (made.1 ≡ begun_pass made.0 placed)) }
{
    let places = key.places();
    let (begins, end) = blocks(alloc, key)?;
    let (references, fronts) = references(alloc, key, end)?;
    let ends = fronts_end(key, fronts);
    let row = first_row(alloc, key, placed, references.as_slice(), fronts, ends)?;
    let (table, seat) = Table::of_words(alloc, row.as_slice(), key)?;
    let count = table.word_count();
    let words = BatchWords {
        table,
        places,
        begins,
        references,
        fronts,
        ends,
        count,
    };
    let pass = Pass {
        seat,
        bodies: 0,
        placed,
    };
    Ok((words, pass))
}

impl<K: BatchData> BatchWords<K> {
    /// The words of a batch of which all is placed, with its references and fronts stored and all else 0, and its first pass. An error
    /// means out of memory.
    pub fn new(alloc: Global, key: &K) -> Result<(BatchWords<K>, Pass), AllocError>
        requires { K.placed key.now ≡ true }
        ensures { IfOk result (λ made. (made.0.key ≡ key.now) × (made.1 ≡ first_pass made.0)) }
    {
        begun(alloc, key, true)
    }

    /// The words of a batch of which nothing is placed yet, all 0, and its first pass. An error means out of memory.
    pub fn open(alloc: Global, key: &K) -> Result<(BatchWords<K>, Pass), AllocError>
        requires { K.placed key.now ≡ false }
        ensures { IfOk result (λ made. (made.0.key ≡ key.now) × (made.1 ≡ open_pass made.0)) }
    {
        begun(alloc, key, false)
    }

    /// Cuts a pass in two, by one load: the first goes on and the second begins, and neither is sole.
    pub fn split(&self, pass: Pass) -> (Pass, Pass)
        requires { IsPassOf self.now pass }
        ensures first { result.0 ≡ cut_first pass }
        ensures second { result.1 ≡ cut_second pass result.1.number }
    {
        let Pass {
            mut seat,
            bodies,
            placed,
        } = pass;
        let other = self.cut_off(&mut seat);
        (
            Pass {
                seat,
                bodies,
                placed,
            },
            Pass {
                seat: other,
                bodies: 0,
                placed,
            },
        )
    }

    /// Joins two passes, by one load: the first goes on, knows what either knew, and keeps the other's events.
    pub fn join(&self, pass: Pass, other: Pass) -> Pass
        requires first { IsPassOf self.now pass }
        requires second { IsPassOf self.now other }
        ensures { result ≡ joined_pass pass other }
    {
        let Pass {
            seat: first,
            bodies,
            placed,
        } = pass;
        let Pass {
            seat: second,
            bodies: more,
            placed: also_placed,
        } = other;
        let seat = self.take_in(first, second);
        Pass {
            seat,
            bodies: bodies.saturating_add(more),
            placed: placed || also_placed,
        }
    }
}
