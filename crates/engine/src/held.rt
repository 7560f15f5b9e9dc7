//! Needs that were found held.

ghost use Rattle.std.specs.Prelude.{◌≡◌, ◌<◌, ◌||◌, true};
ghost use Rattle.model_base.specs.declared.deed.Kind.{Kind as Use};
ghost use Rattle.model_base.specs.Privileges.{has_kind};
ghost use Rattle.grants_base.specs.Book.{Entries};

use model_base::{Access, Form, Kinds, Statement, Table, User};
use std::alloc::Global;
use std::marker::Model;

/// Of how many users and tables something is remembered at most.
const MOST_PAIRS: usize = 4096;
// With few pairs most needs would be looked up again.
const _: () = prove!(MOST_PAIRS >= 1024);

/// None of the four kinds.
const NO_KINDS: Kinds = Kinds {
    read: false,
    insert: false,
    update: false,
    delete: false,
};

/// The kinds on a table that a user was found to hold.
#[derive(Clone, Copy)]
pub(crate) struct HeldKinds {
    user: User,
    table: Table,
    kinds: Kinds,
    /// How many revocations there were before.
    revocations: u32,
}

/// Where a user and a table are looked for.
fn index_of(user: User, table: Table) -> usize
    ensures { result < MOST_PAIRS }
{
    user.0.wrapping_add(table.0.wrapping_mul(61)) as usize % MOST_PAIRS
}

/// Whether each of the kinds is among the others. It has no branch, since it is asked of each access.
fn are_among(kinds: &Kinds, others: &Kinds) -> bool
    ensures { result ≡ true → (kind : Use) → has_kind kinds.now kind ≡ true → has_kind others.now kind ≡ true }
{
    (!kinds.read | others.read)
        & (!kinds.insert | others.insert)
        & (!kinds.update | others.update)
        & (!kinds.delete | others.delete)
}

/// The kinds that are among the first or the second.
fn joined(first: &Kinds, second: &Kinds) -> Kinds
    ensures { (kind : Use) → has_kind result kind ≡ (has_kind first.now kind || has_kind second.now kind) }
{
    Kinds {
        read: first.read || second.read,
        insert: first.insert || second.insert,
        update: first.update || second.update,
        delete: first.delete || second.delete,
    }
}

/// For some users and tables the kinds that were found held. They stay so until a revocation.
#[derive(Drop)]
pub(crate) struct HeldNeeds {
    pairs: Vec<HeldKinds>,
    revocations: u32,
}

impl Model for HeldNeeds {
    ghost use Rattle.engine.specs.Held.{AreEarlier, Memory};

    ghost Value = { Memory };

    ghost view = { λ held. record { pairs = held.pairs.items; revocations = held.revocations } };

    ghost invariant = { λ held. AreEarlier (record { pairs = held.pairs.items; revocations = held.revocations }) };
}

impl HeldNeeds {
    ghost use Rattle.std.specs.List.{flat_map};
    ghost use Rattle.model_base.specs.Outcomes.{needs, needs_of_access};
    ghost use Rattle.engine.specs.Held.{AreHeld, HasAll, has_now, use_of};

    /// Nothing is remembered. It doesn't allocate.
    pub(crate) fn new(alloc: Global) -> Self
        ensures { (book : Entries) → AreHeld book result }
    {
        HeldNeeds {
            pairs: Vec::new(alloc),
            revocations: 0,
        }
    }

    /// The kinds on the table that are remembered of the user.
    fn kinds(&self, user: User, table: Table) -> Kinds
        ensures { (book : Entries) → AreHeld book self.now → (kind : Use) → has_kind result kind ≡ true
            → has_now book user (use_of table kind) ≡ true }
    {
        match self.pairs.get(index_of(user, table)) {
            Some(pair)
                if pair.user == user
                    && pair.table == table
                    && pair.revocations == self.revocations => { pair.kinds }
            _ => NO_KINDS,
        }
    }

    /// Whether each need of the accesses is remembered.
    fn has_each(&self, user: User, accesses: &[Access]) -> bool
        ensures { result ≡ true → (book : Entries) → AreHeld book self.now → HasAll book user (flat_map needs_of_access accesses.now) }
    {
        for access in accesses {
            if !are_among(&access.kinds, &self.kinds(user, access.key.table)) {
                return false;
            }
        }
        true
    }

    /// Whether each need of the statement is remembered. That of a deed never is.
    pub(crate) fn has_all(&self, statement: &Statement) -> bool
        ensures { result ≡ true → (book : Entries) → AreHeld book self.now → HasAll book statement.now.user (needs statement.now.form) }
    {
        match &statement.form {
            Form::Run {
                accesses,
                deed: None,
                ..
            } => self.has_each(statement.user, accesses.as_slice()),
            _ => false,
        }
    }

    /// Makes room for what is to be remembered, if there is none. Where memory runs out nothing is remembered.
    fn make_room(&mut self)
        ensures { (book : Entries) → AreHeld book self.old → AreHeld book self.new }
    {
        if self.pairs.is_empty() {
            let nothing = HeldKinds {
                user: User(0),
                table: Table(0),
                kinds: NO_KINDS,
                revocations: 0,
            };
            let _made = self.pairs.resize(MOST_PAIRS, nothing);
        }
    }

    /// Remembers that the needs of the access are held, in place of what was remembered there.
    fn remember_access(&mut self, user: User, access: &Access)
        ensures { (book : Entries) → AreHeld book self.old → HasAll book user (needs_of_access access.now) → AreHeld book self.new }
    {
        let table = access.key.table;
        let kinds = joined(&self.kinds(user, table), &access.kinds);
        let index = index_of(user, table);
        if index < self.pairs.len() {
            self.pairs[index] = HeldKinds {
                user,
                table,
                kinds,
                revocations: self.revocations,
            };
        }
    }

    /// Remembers that the needs of the accesses are held.
    fn remember_each(&mut self, user: User, accesses: &[Access])
        ensures { (book : Entries) → AreHeld book self.old → HasAll book user (flat_map needs_of_access accesses.now)
            → AreHeld book self.new }
    {
        self.make_room();
        for access in accesses {
            self.remember_access(user, access);
        }
    }

    /// Remembers that the needs of the statement are held, but for that of a deed.
    pub(crate) fn remember(&mut self, statement: &Statement)
        ensures { (book : Entries) → AreHeld book self.old → HasAll book statement.now.user (needs statement.now.form)
            → AreHeld book self.new }
    {
        if let Form::Run {
            accesses,
            deed: None,
            ..
        } = &statement.form
        {
            self.remember_each(statement.user, accesses.as_slice());
        }
    }

    /// Forgets all of it, and gives no memory back.
    pub(crate) fn clear(&mut self)
        ensures { (book : Entries) → AreHeld book self.new }
    {
        self.pairs.clear();
    }

    /// Forgets all of it, since a revocation comes. It doesn't go through what there is.
    pub(crate) fn forget(&mut self)
        ensures { (book : Entries) → AreHeld book self.new }
    {
        if self.revocations == u32::MAX {
            self.clear();
        } else {
            self.revocations += 1;
        }
    }
}
