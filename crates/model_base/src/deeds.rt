//! The deeds of a statement, one after another.

ghost use Rattle.std.specs.Prelude.{◌≡◌, ◌<◌, ◌∷◌, [], MatchOption, length, map};

use crate::deed::{Deed, Grant, Kind, Kinds, Position, Revocation};
use crate::grantees::Grantees;
use crate::name::{Place, Table, User};
use crate::needs::take_kind;
use std::marker::Model;

/// The grants of a deed that are left, by kind and then by grantee.
#[derive(Drop)]
pub(crate) struct Grants<'a> {
    place: Place,
    grantor: User,
    table: Table,
    option: bool,
    grantees: &'a Grantees,
    /// The kind that is granted next, and the index of the first grantee to whom it wasn't.
    kind: Kind,
    index: usize,
    /// The kinds after it.
    kinds: Kinds,
}

impl<'a> Grants<'a> {
    ghost use Rattle.model_base.specs.DeedsLeft.{grants_left};
    ghost use Rattle.model_base.specs.declared.limits.TheConstants.{MOST_GRANTEES};

    /// Takes the grant of this kind to the next grantee.
    #[inline(always)]
    fn take_first(&mut self) -> Grant
        requires within { self.old.index < length self.old.grantees.now }
        requires few { self.old.index < MOST_GRANTEES }
        ensures { grants_left self.old ≡ result ∷ grants_left self.new }
    {
        let grant = Grant {
            place: self.place,
            grantor: self.grantor,
            grantee: self.grantees.at(self.index),
            position: Position::at(self.index),
            kind: self.kind,
            table: self.table,
            option: self.option,
        };
        self.index += 1;
        grant
    }

    /// The first grant that is left, if one is, which is then left no more.
    #[inline(always)]
    fn next(&mut self) -> Option<Grant>
        ensures { MatchOption result ((grants_left self.old ≡ []) × (grants_left self.new ≡ []))
            (λ grant. grants_left self.old ≡ grant ∷ grants_left self.new) }
    {
        if self.index < self.grantees.len() {
            return Some(self.take_first());
        }
        let Some(kind) = take_kind(&mut self.kinds) else {
            return None;
        };
        self.kind = kind;
        self.index = 0;
        Some(self.take_first())
    }
}

/// What is left of the deeds of a statement.
#[derive(Drop)]
pub(crate) enum Left<'a> {
    Nothing,
    Grants(Grants<'a>),
    Revocation(Revocation),
}

/// The deeds of a statement that are left, in the order in which they are made: its grants by kind and then by grantee, or its revocation.
#[derive(Drop)]
pub struct Deeds<'a> {
    left: Left<'a>,
}

impl<'a> Model for Deeds<'a> {
    ghost use Rattle.std.specs.Prelude.{List};
    ghost use Rattle.model_base.specs.declared.deed.Deed.{Deed};
    ghost use Rattle.model_base.specs.DeedsLeft.{deeds_left};

    ghost Value = { List Deed };

    ghost view = { λ deeds. deeds_left deeds.left };
}

impl<'a> Deeds<'a> {
    ghost use Rattle.model_base.specs.Outcomes.{grants_at, kinds_in};
    ghost use Rattle.model_base.specs.declared.deed.Deed.TheVariants.{Granting, Revoking};

    /// No deed.
    #[inline(always)]
    pub(crate) fn none() -> Self
        ensures { result ≡ [] }
    {
        Deeds {
            left: Left::Nothing,
        }
    }

    /// The grants of some kinds to some grantees.
    #[inline(always)]
    pub(crate) fn granting(
        place: Place,
        grantor: User,
        table: Table,
        option: bool,
        grantees: &'a Grantees,
        kinds: Kinds,
    ) -> Self
        ensures { result ≡ map Granting (grants_at place grantor table option grantees.now (kinds_in kinds)) }
    {
        Deeds {
            left: Left::Grants(Grants {
                place,
                grantor,
                table,
                option,
                grantees,
                kind: Kind::Read,
                index: grantees.len(),
                kinds,
            }),
        }
    }

    /// The one revocation.
    #[inline(always)]
    pub(crate) fn revoking(revocation: Revocation) -> Self
        ensures { result ≡ Revoking revocation ∷ [] }
    {
        Deeds {
            left: Left::Revocation(revocation),
        }
    }

    /// The first deed that is left, if one is, which is then left no more.
    #[inline(always)]
    pub fn next(&mut self) -> Option<Deed>
        ensures { MatchOption result ((self.old ≡ []) × (self.new ≡ [])) (λ deed. self.old ≡ deed ∷ self.new) }
    {
        match &mut self.left {
            Left::Nothing => None,
            Left::Grants(grants) => match grants.next() {
                Some(grant) => Some(Deed::Granting(grant)),
                None => None,
            },
            Left::Revocation(revocation) => {
                let revocation = *revocation;
                self.left = Left::Nothing;
                Some(Deed::Revoking(revocation))
            }
        }
    }
}
