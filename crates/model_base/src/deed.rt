//! Privileges on tables, and the deeds that change who holds them.
//!
//! After P. P. Griffiths and B. W. Wade, "An Authorization Mechanism for a Relational Database System", ACM TODS 1
//! (1976), and R. Fagin, "On an Authorization Mechanism", ACM TODS 3 (1978).

use crate::grantees::Grantees;
use crate::name::{Place, Table, User};
use std::marker::Model;

/// What a privilege lets its holder do with the rows of a table.
#[derive(Clone, Copy, PartialEq, Eq, Debug)]
pub enum Kind {
    Read,
    Insert,
    Update,
    Delete,
}

impl Kind {
    ghost use Rattle.std.specs.Prelude.{◌≡◌};
    ghost use Rattle.model_base.specs.Privileges.{same_kind};
    ghost use Rattle.model_base.specs.Ranks.{kind_code};

    /// The code of the kind, in the order of the kinds.
    pub fn code(self) -> u8
        ensures { result ≡ kind_code self }
    {
        match self {
            Kind::Read => 0,
            Kind::Insert => 1,
            Kind::Update => 2,
            Kind::Delete => 3,
        }
    }

    /// Whether the two kinds are the same.
    fn is_same(self, other: Kind) -> bool
        ensures { result ≡ same_kind self other }
    {
        self == other
    }
}

/// Some of the four kinds.
#[derive(Clone, Copy, Debug)]
pub struct Kinds {
    pub read: bool,
    pub insert: bool,
    pub update: bool,
    pub delete: bool,
}

impl Kinds {
    ghost use Rattle.std.specs.Prelude.{◌≡◌};
    ghost use Rattle.model_base.specs.Privileges.{has_kind, only};

    /// The one kind alone.
    #[inline(always)]
    pub fn only(kind: Kind) -> Self
        ensures { result ≡ only kind }
    {
        Kinds {
            read: kind.is_same(Kind::Read),
            insert: kind.is_same(Kind::Insert),
            update: kind.is_same(Kind::Update),
            delete: kind.is_same(Kind::Delete),
        }
    }

    /// Whether the kind is one of these.
    pub fn contains(&self, kind: Kind) -> bool
        ensures { result ≡ has_kind self.now kind }
    {
        match kind {
            Kind::Read => self.read,
            Kind::Insert => self.insert,
            Kind::Update => self.update,
            Kind::Delete => self.delete,
        }
    }
}

/// A privilege that a statement needs: a kind on a table, with or without the right to grant it further.
#[derive(Clone, Copy, PartialEq, Eq, Debug)]
pub struct Need {
    pub table: Table,
    pub kind: Kind,
    pub option: bool,
}

/// Since when a need isn't held.
#[derive(Clone, Copy, PartialEq, Eq, Debug)]
pub enum Cause {
    /// No deed ever gave it.
    Never,
    /// The revocation of this place took it last.
    Taken(Place),
}

/// To whom a privilege is granted: to one user, or to all of them. PUBLIC is every user, now and later, and gives
/// nobody the right to grant further.
#[derive(Clone, Copy, PartialEq, Eq, Debug)]
pub enum Grantee {
    User(User),
    Public,
}

impl Grantee {
    ghost use Rattle.std.specs.Prelude.{◌≡◌};
    ghost use Rattle.model_base.specs.Privileges.{reaches, same_grantee};

    /// Whether the two grantees are the same.
    pub fn is_same(self, other: Grantee) -> bool
        ensures { result ≡ same_grantee self other }
    {
        self == other
    }

    /// Whether what is granted to it is granted to the user: PUBLIC is every user where no option is needed.
    fn reaches(self, user: User, option: bool) -> bool
        ensures { result ≡ reaches self user option }
    {
        match self {
            Grantee::User(grantee) => grantee == user,
            Grantee::Public => !option,
        }
    }
}

/// Which of its deed's grantees a grant is to, in the order in which the deed names them.
#[derive(Clone, Copy, PartialEq, Eq, Debug)]
pub enum Position {
    First,
    Second,
    Third,
    Fourth,
    Fifth,
    Sixth,
    Seventh,
    Eighth,
}

impl Position {
    ghost use Rattle.std.specs.Prelude.{◌≡◌, ◌<◌, Some, slice_get};
    ghost use Rattle.model_base.specs.Outcomes.{positions};
    ghost use Rattle.model_base.specs.declared.limits.TheConstants.{MOST_GRANTEES};
    ghost use Rattle.model_base.specs.Ranks.{position_code};

    /// The position of this index.
    pub(crate) fn at(index: usize) -> Self
        requires { index < MOST_GRANTEES }
        ensures { slice_get positions index ≡ Some result }
    {
        match index {
            0 => Position::First,
            1 => Position::Second,
            2 => Position::Third,
            3 => Position::Fourth,
            4 => Position::Fifth,
            5 => Position::Sixth,
            6 => Position::Seventh,
            _ => Position::Eighth,
        }
    }

    /// The code of the position, from 0.
    pub(crate) fn code(self) -> u8
        ensures { result ≡ position_code self }
    {
        match self {
            Position::First => 0,
            Position::Second => 1,
            Position::Third => 2,
            Position::Fourth => 3,
            Position::Fifth => 4,
            Position::Sixth => 5,
            Position::Seventh => 6,
            Position::Eighth => 7,
        }
    }
}

/// The name of the record of one grant: the place of its deed, its kind, and the position of its grantee in the deed. Records are in the
/// order of these three.
#[derive(Clone, Copy, Debug)]
pub struct RecordName {
    pub place: Place,
    pub kind: Kind,
    pub position: Position,
}

impl Model for RecordName {
    ghost use Rattle.std.specs.Prelude.{ℕ};

    ghost Value = { ℕ };

    ghost use Rattle.model_base.specs.Ranks.{rank_of};
    ghost use Rattle.model_base.specs.RecordNames.{named, named-undoes};

    ghost view = { λ name. rank_of name.place name.kind name.position };

    ghost inverse = { named };

    ghost inverse_ok = { λ name _. named-undoes name };
}

impl RecordName {
    ghost use Rattle.std.specs.Prelude.{◌≡◌, ◌==◌, ◌%◌, nat_lt};

    /// The number of the record among those of its place, in order.
    fn number_at_place(self) -> u8
        ensures { result ≡ self % 32 }
    {
        self.kind.code() * 8 + self.position.code()
    }

    /// Whether the record is before the other, in the order of records.
    pub fn is_before(self, other: RecordName) -> bool
        ensures { result ≡ nat_lt self other }
    {
        self.place < other.place
            || (self.place == other.place && self.number_at_place() < other.number_at_place())
    }

    /// Whether the two are names of the same record.
    pub fn is_same(self, other: RecordName) -> bool
        ensures { result ≡ (self == other) }
    {
        let kinds = self.kind.code() == other.kind.code();
        let positions = self.position.code() == other.position.code();
        (self.place == other.place) & kinds & positions
    }
}

/// One grant of one kind on one table to one user, or to all, with the place of its transaction and the position of its grantee there.
#[derive(Clone, Copy, PartialEq, Eq, Debug)]
pub struct Grant {
    pub place: Place,
    pub grantor: User,
    pub grantee: Grantee,
    pub position: Position,
    pub kind: Kind,
    pub table: Table,
    pub option: bool,
}

/// A grant, and the place of the revocation that took it out of force, if one did.
#[derive(Clone, Copy, PartialEq, Eq, Debug)]
pub struct Record {
    pub grant: Grant,
    pub end: Option<Place>,
}

impl Grant {
    ghost use Rattle.std.specs.Prelude.{◌≡◌};
    ghost use Rattle.model_base.specs.Privileges.{gives, lends_to, option_holder};
    ghost use Rattle.model_base.specs.Ranks.{rank};

    /// The name of its record.
    pub fn name(&self) -> RecordName
        ensures { result ≡ rank self.now }
    {
        RecordName {
            place: self.place,
            kind: self.kind,
            position: self.position,
        }
    }

    /// To whom it gives the right to grant further: to its grantee, if it is with the option. PUBLIC never has it.
    pub fn option_holder(&self) -> Option<User>
        ensures { result ≡ option_holder self.now }
    {
        match self.grantee {
            Grantee::User(user) if self.option => Some(user),
            _ => None,
        }
    }

    /// Whether it gives the user the right to grant further.
    pub fn lends_to(&self, user: User) -> bool
        ensures { result ≡ lends_to self.now user }
    {
        match self.option_holder() {
            Some(holder) => holder == user,
            None => false,
        }
    }

    /// Whether it gives the user what is needed.
    #[tactic(auto, unfolding(crate::specs::Privileges::gives))]
    pub fn gives(&self, user: User, need: &Need) -> bool
        ensures { result ≡ gives self.now user need.now }
    {
        self.grantee.reaches(user, need.option)
            && self.kind.is_same(need.kind)
            && self.table == need.table
            && (self.option || !need.option)
    }
}

/// The revocation of its grantor's earlier grants of some kinds on one table to some users, or to all.
#[derive(Clone, Copy)]
pub struct Revocation {
    pub place: Place,
    pub grantor: User,
    pub grantees: Grantees,
    pub kinds: Kinds,
    pub table: Table,
}

impl Revocation {
    ghost use Rattle.std.specs.Prelude.{◌≡◌};
    ghost use Rattle.model_base.specs.Privileges.{concerns, names};

    /// Whether it speaks of the grant's kind and table.
    pub fn concerns(&self, grant: &Grant) -> bool
        ensures { result ≡ concerns self.now grant.now }
    {
        self.kinds.contains(grant.kind) && self.table == grant.table
    }

    /// Whether it names the grant: its grantor made that to one of its grantees, of one of its kinds on its table.
    #[tactic(auto, unfolding(crate::specs::Privileges::names))]
    pub fn names(&self, grant: &Grant) -> bool
        ensures { result ≡ names self.now grant.now }
    {
        self.grantor == grant.grantor
            && self.grantees.contains(&grant.grantee)
            && self.concerns(grant)
    }
}

/// What changes who holds which privilege.
#[derive(Clone, Copy)]
pub enum Deed {
    Granting(Grant),
    Revoking(Revocation),
}
