//! What holds of all that there is to show.

ghost use Rattle.std.specs.Prelude.{ℕ, List};
ghost use Rattle.model_base.specs.Outcomes.{deeds_before, owners};
ghost use Rattle.model_base.specs.Paths.{path};
ghost use Rattle.model_base.specs.Privileges.{IsProper, kept};
ghost use Rattle.model_base.specs.Records.{grants_of};
ghost use Rattle.model_base.specs.declared.deed.Deed.{Deed};
ghost use Rattle.model_base.specs.declared.deed.Need.{Need};
ghost use Rattle.model_base.specs.declared.statement.Statement.{Statement};
ghost use Rattle.explain.specs.Lines.{HaveOneGrantor, IsSound, PlacesRise, shown_of};

/// What there is to show of a need holds, if the grants of each place have one grantor: the path of a held need is a chain that bears it,
/// and so is, at the revocation that took it last, the path of a lost one.
pub fn shown_needs_are_sound()
    ensures { (owners : List ℕ) (deeds : List Deed) (place user : ℕ) (need : Need) → IsProper owners deeds
        → HaveOneGrantor (grants_of deeds) → IsSound owners deeds place user need (shown_of owners deeds place user need) }
{}

/// Along a path of a log not only ranks rise, but places: all grants of a place have one grantor, who held the option before it.
pub fn places_rise_along_paths()
    ensures rise { (log : List Statement) (place user : ℕ) (need : Need)
        → PlacesRise (path (owners log) (kept (owners log) (deeds_before log place)) user need) }
    ensures one { (log : List Statement) (place : ℕ) → HaveOneGrantor (grants_of (deeds_before log place)) }
{}
