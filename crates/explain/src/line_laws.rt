//! What holds of all lines that explain needs.

ghost use Rattle.std.specs.Prelude.{◌≡◌, ◌↔◌, ℕ, List};
ghost use Rattle.model_base.specs.Privileges.{IsProper, deeds_below};
ghost use Rattle.model_base.specs.Records.{grants_of};
ghost use Rattle.model_base.specs.declared.deed.Deed.{Deed};
ghost use Rattle.model_base.specs.declared.deed.Need.{Need};
ghost use Rattle.explain.specs.declared.line.Line.{Line};
ghost use Rattle.explain.specs.ExplainedNeeds.{AreSound, explaining_lines};
ghost use Rattle.explain.specs.Lines.{HaveOneGrantor};

/// The lines that explain needs are sound, so the check accepts them, if the grants of each place have one grantor.
pub fn explained_needs_are_sound()
    ensures { (owners : List ℕ) (deeds : List Deed) (place user : ℕ) (needs : List Need) → IsProper owners deeds
        → HaveOneGrantor (grants_of deeds) → AreSound owners deeds place user needs (explaining_lines owners deeds place user needs) }
{}

/// Deeds at a place, or after it, explain nothing there: the lines that explain needs, and whether lines are sound, are the same for all
/// deeds and for those below the place. So a book that has gone on explains an earlier place as the book as it was there.
pub fn later_deeds_explain_nothing()
    ensures lines { (owners : List ℕ) (deeds : List Deed) (place user : ℕ) (needs : List Need)
        → explaining_lines owners (deeds_below place deeds) place user needs ≡ explaining_lines owners deeds place user needs }
    ensures sound { (owners : List ℕ) (deeds : List Deed) (place user : ℕ) (needs : List Need) (lines : List Line)
        → (AreSound owners (deeds_below place deeds) place user needs lines) ↔ (AreSound owners deeds place user needs lines) }
{}
