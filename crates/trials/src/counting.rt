//! A view that counts how many records are looked at.

use grants::{Holder, NextBy, NextInForce, Records};
use model_base::{Grant, Kind, Place, Table, User};

/// A view, and how often a grant and an end were asked for.
#[derive(Drop)]
pub struct Counting<V: Records> {
    pub view: V,
    pub grants: usize,
    pub ends: usize,
}

impl<V: Records> Records for Counting<V> {
    ghost shown = { λ counting. V.shown counting.view };

    ghost asked = { λ counting. V.asked counting.view };

    fn at(&self) -> Place {
        self.view.at()
    }

    fn covers(&self, table: Table) -> bool {
        self.view.covers(table)
    }

    fn owner(&self, table: Table) -> User {
        self.view.owner(table)
    }

    fn slots(&self) -> usize {
        self.view.slots()
    }

    fn grant(&mut self, i: usize) -> Option<Grant> {
        self.grants = self.grants.saturating_add(1);
        self.view.grant(i)
    }

    fn end(&mut self, i: usize) -> Option<Place> {
        self.ends = self.ends.saturating_add(1);
        self.view.end(i)
    }

    fn next_to(&mut self, holder: Holder, from: usize) -> Option<usize> {
        self.view.next_to(holder, from)
    }

    fn next_by(&mut self, user: User, kind: Kind, table: Table, from: usize) -> Option<usize> {
        self.view.next_by(user, kind, table, from)
    }

    fn next_in_force(&mut self, holder: Holder, option: bool, from: usize) -> Option<NextInForce> {
        self.view.next_in_force(holder, option, from)
    }

    fn next_in_force_by(&mut self, user: User, holder: Holder, from: usize) -> Option<NextBy> {
        self.view.next_in_force_by(user, holder, from)
    }
}
