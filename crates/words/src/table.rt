//! The words of a batch, their rule, and its passes.

ghost use Rattle.std.specs.Prelude.{◌≡◌};

use crate::batch_data::BatchData;
use crate::knowledge::Knowledge;
use atomic_table::{Join, Play, Seat, Split, Table, TableRule};
use std::alloc::Global;
use std::marker::{Brand, Model};

/// The rule of the words.
pub struct Rule;

impl<K: BatchData> TableRule<u8, Knowledge, K> for Rule {
    ghost use Rattle.words.specs.Legal.{table_rule};
    ghost use Rattle.words.specs.Views.{first_view};

    ghost holds = { λ key state. table_rule (K.batch key) (K.listed key) state };

    ghost first = { λ key. first_view (K.placed key) };
}

/// The words of one batch: for each place a block with its claim and its own words; after all blocks the references of each place, then the
/// front of each partition, and then the listed ends.
#[derive(Drop)]
pub struct BatchWords<K: BatchData> {
    pub(crate) table: Table<u8, Knowledge, K, Rule, Global>,
    pub(crate) places: usize,
    /// Where the block of each place begins.
    pub(crate) begins: Vec<usize>,
    /// Where the references of each place begin.
    pub(crate) references: Vec<usize>,
    /// Where the fronts begin.
    pub(crate) fronts: usize,
    /// Where the ends begin.
    pub(crate) ends: usize,
    pub(crate) count: usize,
}

impl<K: BatchData> Model for BatchWords<K> {
    ghost use Rattle.words.specs.Passes.{IsLaid, Words};

    ghost Value = { Words K };

    ghost view = { λ words. record { table = words.table.shared.table_id; key = words.table.shared.key } };

    ghost invariant = { λ words. IsLaid (K.batch words.table.shared.key) (K.listed words.table.shared.key)
        words.table.shared.table_id words.places words.begins.items words.references.items words.fronts words.ends words.count };
}

/// A pass of one batch, which holds no place. It may be handed to any thread.
#[derive(Drop)]
pub struct Pass {
    pub(crate) seat: Seat<u8, Knowledge>,
    pub(crate) bodies: u64,
    /// It knows that all is placed.
    pub(crate) placed: bool,
}

impl Model for Pass {
    ghost use Rattle.words.specs.Passes.{IsIdle, PassState};

    ghost Value = { PassState };

    ghost view = { λ pass. record { table = pass.seat.table_id; number = pass.seat.id; view = pass.seat.me.0; bodies = pass.bodies } };

    ghost invariant = { λ pass. IsIdle pass.seat.me pass.placed };
}

/// A pass that may hold places.
#[derive(Drop)]
pub struct Holding {
    pub(crate) seat: Seat<u8, Knowledge>,
    pub(crate) bodies: u64,
    /// It knows that all is placed.
    pub(crate) placed: bool,
}

impl Model for Holding {
    ghost use Rattle.words.specs.Passes.{IsAlive, PassState};

    ghost Value = { PassState };

    ghost view = { λ pass. record { table = pass.seat.table_id; number = pass.seat.id; view = pass.seat.me.0; bodies = pass.bodies } };

    ghost invariant = { λ pass. IsAlive pass.seat.me pass.placed };
}

/// The right of a partition's placer to step on the words of one batch. It may be handed to any thread.
#[derive(Drop)]
pub struct Placer {
    pub(crate) seat: Seat<u8, Knowledge>,
    pub(crate) partition: usize,
    /// How many places it has placed, which is the index of the one that it places next.
    pub(crate) front: usize,
}

impl Model for Placer {
    ghost use Rattle.words.specs.Passes.{IsPlacer, PlacerState};

    ghost Value = { PlacerState };

    ghost view = { λ placer. record { table = placer.seat.table_id; number = placer.seat.id; view = placer.seat.me.0 } };

    ghost invariant = { λ placer. IsPlacer placer.seat.me placer.partition placer.front };
}

impl Split<Knowledge> for Brand {
    ghost use Rattle.words.specs.Views.{split_left, split_right};

    ghost left = { split_left };

    ghost right = { split_right };
}

impl Join<Knowledge> for Brand {
    ghost use Rattle.words.specs.Views.{spent_view};

    ghost both = { λ view other. view };

    ghost spent = { spent_view };
}

impl Play<u8, Knowledge> for Brand {
    ghost then = { λ step before found after. Unit {0} };
}
