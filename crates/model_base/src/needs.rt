//! The needs of a statement, one after another.

ghost use Rattle.std.specs.Prelude.{◌≡◌, ◌++◌, ◌∷◌, [], MatchOption};
ghost use Rattle.std.specs.Option.{option_map_or};
ghost use Rattle.model_base.specs.Outcomes.{kinds_in, needs_of_deed};

use crate::deed::{Kind, Kinds, Need};
use crate::name::Table;
use crate::statement::{Access, DeedForm, Form};
use std::marker::Model;

/// None of the four kinds.
pub(crate) const NO_KIND: Kinds = Kinds {
    read: false,
    insert: false,
    update: false,
    delete: false,
};

/// Takes the first of some kinds in order out of them, if there is one.
pub(crate) fn take_kind(kinds: &mut Kinds) -> Option<Kind>
    ensures { MatchOption result ((kinds_in kinds.old ≡ []) × (kinds_in kinds.new ≡ []))
        (λ kind. kinds_in kinds.old ≡ kind ∷ kinds_in kinds.new) }
{
    if kinds.read {
        kinds.read = false;
        return Some(Kind::Read);
    }
    if kinds.insert {
        kinds.insert = false;
        return Some(Kind::Insert);
    }
    if kinds.update {
        kinds.update = false;
        return Some(Kind::Update);
    }
    if kinds.delete {
        kinds.delete = false;
        return Some(Kind::Delete);
    }
    None
}

/// The needs of a deed that are left: some kinds on its table, with the option.
#[derive(Drop)]
struct OptionNeeds {
    table: Table,
    kinds: Kinds,
}

impl Model for OptionNeeds {
    ghost use Rattle.std.specs.Prelude.{List, map};
    ghost use Rattle.model_base.specs.declared.deed.Need.{Need};
    ghost use Rattle.model_base.specs.Outcomes.{kinds_in, option_on};

    ghost Value = { List Need };

    ghost view = { λ left. map (option_on left.table) (kinds_in left.kinds) };
}

impl OptionNeeds {
    /// No need.
    fn none() -> Self
        ensures { result ≡ [] }
    {
        OptionNeeds {
            table: Table(0),
            kinds: NO_KIND,
        }
    }

    /// Those of a deed: a grant needs each of its kinds with the option, and a revocation nothing.
    fn of(deed: &DeedForm) -> Self
        ensures { result ≡ needs_of_deed deed.now }
    {
        match *deed {
            DeedForm::Grant { kinds, table, .. } => OptionNeeds { table, kinds },
            DeedForm::Revoke { .. } => OptionNeeds::none(),
        }
    }

    /// Those of a RUN's deed, if it has one.
    fn of_run(deed: &Option<DeedForm>) -> Self
        ensures { result ≡ option_map_or needs_of_deed deed.now [] }
    {
        match deed {
            Some(deed) => OptionNeeds::of(deed),
            None => OptionNeeds::none(),
        }
    }

    /// The first need that is left, if one is, which is then left no more.
    fn next(&mut self) -> Option<Need>
        ensures { MatchOption result ((self.old ≡ []) × (self.new ≡ [])) (λ need. self.old ≡ need ∷ self.new) }
    {
        match take_kind(&mut self.kinds) {
            Some(kind) => Some(Need {
                table: self.table,
                kind,
                option: true,
            }),
            None => None,
        }
    }
}

/// The needs of a statement that are left, in the order in which they are checked: those of its accesses, and then those of its deed.
#[derive(Drop)]
pub struct Needs<'a> {
    /// The table of the access whose needs are given, and its kinds that are left.
    table: Table,
    kinds: Kinds,
    /// The accesses after it.
    accesses: &'a [Access],
    deed: OptionNeeds,
}

impl<'a> Model for Needs<'a> {
    ghost use Rattle.std.specs.Prelude.{List};
    ghost use Rattle.model_base.specs.declared.deed.Need.{Need};
    ghost use Rattle.model_base.specs.NeedsLeft.{needs_left};

    ghost Value = { List Need };

    ghost view = { λ left. needs_left left.table left.kinds left.accesses.now left.deed };
}

impl<'a> Needs<'a> {
    ghost use Rattle.std.specs.List.{flat_map};
    ghost use Rattle.model_base.specs.Outcomes.{needs, needs_of_access};

    /// The needs of some accesses, and after them those of a deed.
    fn after(accesses: &'a [Access], deed: OptionNeeds) -> Self
        ensures { result ≡ flat_map needs_of_access accesses.now ++ deed }
    {
        Needs {
            table: Table(0),
            kinds: NO_KIND,
            accesses,
            deed,
        }
    }

    /// All needs of a statement.
    pub fn of(form: &'a Form) -> Self
        ensures { result ≡ needs form.now }
    {
        match form {
            Form::Create { .. } => Needs::after(&[], OptionNeeds::none()),
            Form::Run { accesses, deed, .. } => {
                Needs::after(accesses.as_slice(), OptionNeeds::of_run(deed))
            }
            Form::Deed(deed) => Needs::after(&[], OptionNeeds::of(deed)),
        }
    }

    /// The first need that is left, if one is, which is then left no more.
    pub fn next(&mut self) -> Option<Need>
        ensures { MatchOption result ((self.old ≡ []) × (self.new ≡ [])) (λ need. self.old ≡ need ∷ self.new) }
    {
        'accesses: loop {
            if let Some(kind) = take_kind(&mut self.kinds) {
                return Some(Need {
                    table: self.table,
                    kind,
                    option: false,
                });
            }
            let Some((access, later)) = self.accesses.split_first() else {
                return self.deed.next();
            };
            self.table = access.key.table;
            self.kinds = access.kinds;
            self.accesses = later;
        }
    }
}
