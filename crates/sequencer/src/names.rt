//! Names in the order in which they came, each found by its hash.

ghost use Rattle.std.specs.Prelude.{◌<◌};

use crate::refused::Refused;
use crate::testing::test_parties;
use indexmap::IndexSet;
use line_words::same_text;
use log_text::{RawGrantee, RawGrantees};
use model_base::{Grantee, Grantees, HashSeed, MOST_NAMES, User};
use std::alloc::{AllocError, Global};
use std::marker::Model;

/// This many numbers are remembered.
pub(crate) const RECENT_NUMBERS: usize = 256;

/// Where the number of a name is remembered: by its last bytes, so that names that count up are remembered in different places.
#[inline(always)]
pub(crate) fn recent_place(name: &[u8]) -> usize
    ensures { result < RECENT_NUMBERS }
{
    let len = name.len();
    if len < 3 {
        return 0;
    }
    let (hundreds, tens, ones) = (name[len - 3], name[len - 2], name[len - 1]);
    (usize::from(hundreds) * 100 + usize::from(tens) * 10 + usize::from(ones)) % RECENT_NUMBERS
}

/// The names of the users or of the tables of a log. A name's number is its index, from 0.
#[derive(Drop)]
pub struct NameTable {
    names: IndexSet<String, HashSeed>,
    /// Numbers that were returned before, by the last bytes of their names. They say nothing of the names: one of them is only tried first.
    recent: [u32; RECENT_NUMBERS],
    alloc: Global,
}

impl Model for NameTable {
    ghost use Rattle.std.specs.Prelude.{List, ℕ, ◌≤◌, map, length, string_bytes};
    ghost use Rattle.model_base.specs.declared.limits.TheConstants.{MOST_NAMES};

    ghost Value = { List (List ℕ) };

    ghost view = { λ table. map string_bytes table.names.keys };

    ghost invariant = { λ table. length table.names.keys ≤ MOST_NAMES };
}

impl NameTable {
    ghost use Rattle.std.specs.Prelude.{◌≡◌, ◌<◌, ◌≤◌, ◌-◌, [], length, map, take, slice_get, Some, None, IfOk, IfErr, OnOk, OnErr, not, is_some, false, true, option_map};
    ghost use Rattle.std.specs.Bool.{OnTrue};
    ghost use Rattle.sequencer.specs.Names.{is_known, known_number, number_of, with_name};
    ghost use Rattle.sequencer.specs.Catalog.{numbered_grantee, with_all_named, with_named};
    ghost use Rattle.sequencer.specs.Refusal.{IsRefusal, name_refusal, named_refusal, named_refusals, parties_refusal};

    /// The table without names. It doesn't allocate.
    pub fn new(alloc: Global) -> Self
        ensures { result ≡ [] }
    {
        NameTable::seeded(alloc, HashSeed::fixed())
    }

    /// The table without names, which are found under this seed. It doesn't allocate.
    pub fn seeded(alloc: Global, seed: HashSeed) -> Self
        ensures { result ≡ [] }
    {
        NameTable {
            names: IndexSet::with_hasher(alloc, seed),
            recent: [0; RECENT_NUMBERS],
            alloc,
        }
    }

    /// The seed under which names are found.
    pub(crate) fn seed(&self) -> HashSeed {
        *self.names.hasher()
    }

    /// How many names there are.
    pub fn len(&self) -> usize
        ensures count { result ≡ length self.now }
        ensures most { length self.now ≤ MOST_NAMES }
    {
        self.names.len()
    }

    /// The number of a name, if it is there.
    #[inline(never)]
    pub fn find(&self, name: &str) -> Option<u32>
        ensures number { result ≡ known_number self.now name.now }
        ensures known { is_some result ≡ is_known self.now name.now }
    {
        let index = self.names.get_index_of(name)?;
        Some(index as u32)
    }

    /// The number of a name, if it is there, as `find`. The name of one number is compared first: where it is the same, nothing
    /// is hashed.
    #[inline(always)]
    pub(crate) fn find_near(&self, near: u32, name: &str) -> Option<u32>
        ensures number { result ≡ known_number self.now name.now }
        ensures known { is_some result ≡ is_known self.now name.now }
    {
        if self.is_name(near, name) {
            return Some(near);
        }
        self.find(name)
    }

    /// Whether a name is that of a number.
    #[inline(always)]
    pub(crate) fn is_name(&self, number: u32, name: &str) -> bool
        ensures number { OnTrue result (known_number self.now name.now ≡ Some number) }
        ensures known { OnTrue result (is_known self.now name.now ≡ true) }
        ensures within { OnTrue result (number < length self.now) }
    {
        match self.names.as_slice().get(number as usize) {
            Some(own) => same_text(own.as_bytes(), name.as_bytes()),
            None => false,
        }
    }

    /// The name of this number.
    pub fn name(&self, number: u32) -> &str
        requires { number < length self.now }
        ensures { slice_get self.now number ≡ Some result.now }
    {
        self.names.get_index(number as usize).unwrap().as_str()
    }

    /// The name of this number, if there is one.
    pub fn get(&self, number: u32) -> Option<&str>
        ensures { option_map (λ name. name.now) result ≡ slice_get self.now number }
    {
        let name = self.names.get_index(number as usize)?;
        Some(name.as_str())
    }

    /// Enters a name that isn't there last, and returns its number. On `Err`, out of memory, nothing has changed.
    pub(crate) fn add(&mut self, name: &str) -> Result<u32, AllocError>
        requires room { length self.old < MOST_NAMES }
        requires is_new { is_known self.old name.now ≡ false }
        ensures number { IfOk result (λ number. number ≡ number_of self.old name.now) }
        ensures added { OnOk result (self.new ≡ with_name self.old name.now) }
        ensures err { OnErr result (self.new ≡ self.old) }
    {
        let name = String::from_str(self.alloc, name)?;
        let (index, _) = self.names.insert_full(name)?;
        Ok(index as u32)
    }

    /// The name of this number, which none before it is.
    pub(crate) fn new_name(&self, number: u32) -> &str
        requires { number < length self.now }
        ensures name { slice_get self.now number ≡ Some result.now }
        ensures is_new { is_known (take number self.now) result.now ≡ false }
        ensures room { number < MOST_NAMES }
    {
        let names = self.names.as_slice();
        let own = &names[number as usize];
        own.as_str()
    }

    /// Learns the names that a later table has beyond these. On `Err`, out of memory, the first of them may be learned.
    pub(crate) fn catch_up(&mut self, later: &NameTable) -> Result<(), AllocError>
        requires { take (length self.old) later.now ≡ self.old }
        ensures ok { OnOk result (self.new ≡ later.now) }
        ensures begins { take (length self.new) later.now ≡ self.new }
    {
        for index in self.names.len()..later.names.len() {
            self.add(later.new_name(index as u32))?;
        }
        Ok(())
    }

    /// The number of a name that is there already or is entered last. It says too whether it is new. A new name is refused where there are
    /// `MOST_NAMES`, or for lack of memory; then nothing has changed.
    pub fn enter(&mut self, name: &str) -> Result<(u32, bool), Refused>
        ensures number { IfOk result (λ r. r.0 ≡ number_of self.old name.now) }
        ensures is_new { IfOk result (λ r. r.1 ≡ not (is_known self.old name.now)) }
        ensures entered { OnOk result (self.new ≡ with_name self.old name.now) }
        ensures passes { OnOk result (name_refusal self.old name.now ≡ None) }
        ensures refused { IfErr result (λ r. IsRefusal r (name_refusal self.old name.now)) }
        ensures err { OnErr result (self.new ≡ self.old) }
    {
        let place = recent_place(name.as_bytes());
        if let Some(number) = self.find_near(self.recent[place], name) {
            self.recent[place] = number;
            return Ok((number, false));
        }
        if self.len() >= MOST_NAMES {
            return Err(Refused::TooManyNames);
        }
        let number = self.add(name)?;
        Ok((number, true))
    }

    /// The refusal of a user and of grantees for whom there is no memory.
    #[cold]
    #[tactic(auto, using(crate::proofs::RefusalLemmas::refusal_of_test))]
    fn refused(&self, user: &str, grantees: &RawGrantees<'_>) -> Refused
        ensures { IsRefusal result (parties_refusal self.now user.now grantees.now) }
    {
        match test_parties(self, user, grantees) {
            Ok(()) => Refused::NoMemory,
            Err(refused) => refused,
        }
    }

    /// A grantee by its number, which is there already or is entered last. PUBLIC isn't entered. It refuses as `enter`, and then nothing
    /// has changed.
    fn enter_grantee(&mut self, grantee: &RawGrantee<'_>) -> Result<Grantee, Refused>
        ensures grantee { IfOk result (λ g. g ≡ numbered_grantee self.old grantee.now) }
        ensures entered { OnOk result (self.new ≡ with_named self.old grantee.now) }
        ensures passes { OnOk result (named_refusal self.old grantee.now ≡ None) }
        ensures err { OnErr result (self.new ≡ self.old) }
    {
        match grantee {
            RawGrantee::Named(name) => {
                let (number, _) = self.enter(name.as_str())?;
                Ok(Grantee::User(User(number)))
            }
            RawGrantee::Public => Ok(Grantee::Public),
        }
    }

    /// Grantees by their numbers, from left to right, each as `enter_grantee`. After a refusal the first of them may be entered.
    #[inline(never)]
    fn enter_listed(&mut self, grantees: &RawGrantees<'_>) -> Result<Grantees, Refused>
        ensures grantees { IfOk result (λ gs. gs ≡ map (numbered_grantee self.new) grantees.now) }
        ensures entered { OnOk result (self.new ≡ with_all_named self.old grantees.now) }
        ensures passes { OnOk result (named_refusals self.old grantees.now ≡ None) }
        ensures begins { take (length self.old) self.new ≡ self.old }
    {
        let mut left = grantees.all();
        let first = left.next().unwrap();
        let mut found = Grantees::of(self.enter_grantee(&first)?);
        'grantees: while let Some(grantee) = left.next() {
            found.push(self.enter_grantee(&grantee)?);
        }
        Ok(found)
    }

    /// Grantees by their numbers, as `enter_listed`. Mostly there is one, of a name.
    #[inline(always)]
    fn enter_grantees(&mut self, grantees: &RawGrantees<'_>) -> Result<Grantees, Refused>
        ensures grantees { IfOk result (λ gs. gs ≡ map (numbered_grantee self.new) grantees.now) }
        ensures entered { OnOk result (self.new ≡ with_all_named self.old grantees.now) }
        ensures passes { OnOk result (named_refusals self.old grantees.now ≡ None) }
        ensures begins { take (length self.old) self.new ≡ self.old }
    {
        let Some(name) = grantees.only_name() else {
            return self.enter_listed(grantees);
        };
        let (number, _) = self.enter(name.as_str())?;
        Ok(Grantees::of(Grantee::User(User(number))))
    }

    /// The numbers of a user and of grantees, of which each is there already or is entered last, the user before the
    /// grantees. PUBLIC isn't entered. It refuses as `enter`, and then nothing has changed.
    #[inline(always)]
    pub(crate) fn enter_parties(
        &mut self,
        user: &str,
        grantees: &RawGrantees<'_>,
    ) -> Result<(u32, Grantees), Refused>
        ensures user { IfOk result (λ r. r.0 ≡ number_of self.old user.now) }
        ensures grantees { IfOk result (λ r. r.1 ≡ map (numbered_grantee self.new) grantees.now) }
        ensures entered { OnOk result (self.new ≡ with_all_named (with_name self.old user.now) grantees.now) }
        ensures passes { OnOk result (parties_refusal self.old user.now grantees.now ≡ None) }
        ensures refused { IfErr result (λ r. IsRefusal r (parties_refusal self.old user.now grantees.now)) }
        ensures err { OnErr result (self.new ≡ self.old) }
    {
        let before = self.len();
        let Ok((number, _)) = self.enter(user) else {
            return Err(self.refused(user, grantees));
        };
        match self.enter_grantees(grantees) {
            Ok(found) => Ok((number, found)),
            Err(_) => {
                self.forget_to(before);
                Err(self.refused(user, grantees))
            }
        }
    }

    /// Takes out the names beyond the first this many.
    fn forget_to(&mut self, len: usize)
        ensures { self.new ≡ take len self.old }
    {
        self.names.truncate(len);
    }

    /// Takes the last name out, if there is one.
    pub fn forget_last(&mut self)
        ensures { self.new ≡ take (length self.old - 1) self.old }
    {
        self.names.pop();
    }
}
