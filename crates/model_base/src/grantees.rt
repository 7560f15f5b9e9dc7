//! The grantees of a deed.

use crate::deed::{Grantee, Position};
use crate::limits::MOST_GRANTEES;
use crate::name::User;
use std::fmt;
use std::marker::Model;

/// From one to `MOST_GRANTEES` grantees, each once, in order, kept in the value itself, so that a copy doesn't allocate.
#[derive(Clone, Copy)]
pub struct Grantees {
    len: u8,
    /// The index of PUBLIC, or `len` if it isn't one of these.
    public: u8,
    /// Each user at its index; what isn't a user's is 0.
    users: [User; MOST_GRANTEES],
}

impl Model for Grantees {
    ghost use Rattle.std.specs.Prelude.{List};
    ghost use Rattle.model_base.specs.declared.deed.Grantee.{Grantee};

    ghost Value = { List Grantee };

    ghost use Rattle.model_base.specs.Grantees.{grantees_of, IsPacked, packed, packed-undoes};

    ghost view = { grantees_of };

    ghost invariant = { IsPacked };

    ghost inverse = { packed };

    ghost inverse_ok = { packed-undoes };
}

impl Grantees {
    ghost use Rattle.std.specs.Prelude.{◌≡◌, ◌<◌, ◌≤◌, ◌∷◌, ◌++◌, [], Some, false, length, slice_get};
    ghost use Rattle.model_base.specs.Grantees.{AreDistinct};
    ghost use Rattle.model_base.specs.Privileges.{has_grantee};
    ghost use Rattle.model_base.specs.Ranks.{position_code};

    /// The one grantee alone.
    #[inline(always)]
    pub fn of(grantee: Grantee) -> Self
        ensures { result ≡ grantee ∷ [] }
    {
        let mut users = [User(0); MOST_GRANTEES];
        let public = match grantee {
            Grantee::User(user) => {
                users[0] = user;
                1
            }
            Grantee::Public => 0,
        };
        Grantees {
            len: 1,
            public,
            users,
        }
    }

    /// How many there are.
    pub fn len(&self) -> usize
        ensures length { result ≡ length self.now }
        ensures some { 1 ≤ result }
        ensures most { result ≤ MOST_GRANTEES }
        ensures apart { AreDistinct self.now }
    {
        self.len as usize
    }

    /// The grantee at this index.
    pub fn at(&self, index: usize) -> Grantee
        requires { index < length self.now }
        ensures { slice_get self.now index ≡ Some result }
    {
        if index == self.public as usize {
            Grantee::Public
        } else {
            Grantee::User(self.users[index])
        }
    }

    /// The grantee at this position, if there is one.
    pub fn get(&self, position: Position) -> Option<Grantee>
        ensures { result ≡ slice_get self.now (position_code position) }
    {
        let index = position.code() as usize;
        if index < self.len() {
            Some(self.at(index))
        } else {
            None
        }
    }

    /// Appends the grantee.
    pub fn push(&mut self, grantee: Grantee)
        requires room { length self.old < MOST_GRANTEES }
        requires is_new { has_grantee self.old grantee ≡ false }
        ensures { self.new ≡ self.old ++ grantee ∷ [] }
    {
        let index = self.len;
        if let Grantee::User(user) = grantee {
            self.users[index as usize] = user;
            if self.public == index {
                self.public += 1;
            }
        }
        self.len += 1;
    }

    /// Whether the grantee is one of these.
    pub fn contains(&self, grantee: &Grantee) -> bool
        ensures { result ≡ has_grantee self.now grantee.now }
    {
        for index in 0..self.len() {
            if self.at(index).is_same(*grantee) {
                return true;
            }
        }
        false
    }
}

/// Prints the list of the grantees.
impl fmt::Debug for Grantees {
    fn fmt<W: fmt::Write>(&self, f: &mut fmt::Formatter<W>) -> fmt::Result {
        let mut list = f.debug_list();
        for index in 0..self.len() {
            list.entry(&self.at(index));
        }
        list.finish()
    }
}
