//! What holds of all explanations.

ghost use Rattle.std.specs.Prelude.{◌≡◌, ◌≤◌, ℕ, All, List, Some, slice_get};
ghost use Rattle.model_base.specs.declared.statement.Statement.{Statement};
ghost use Rattle.explain.specs.declared.line.Line.{Line};
ghost use Rattle.explain.specs.Explained.{IsExplainedBy, LinesAreGranted, TellsHolding, TellsPrivilege, explained};

/// The lines that explain a place are sound, so the check accepts them.
pub fn explanations_are_sound()
    ensures { (log : List Statement) (place : ℕ) (lines : List Line)
        → explained log place ≡ Some lines → IsExplainedBy log place lines }
{}

/// Of the lines that the check accepts, each that shows its need as held is of a need that the statement's user holds by the
/// deeds before the place, and each other line is of one that the user doesn't hold.
pub fn accepted_needs_are_held()
    ensures held { (log : List Statement) (place : ℕ) (statement : Statement) (lines : List Line)
        → slice_get log place ≡ Some statement → IsExplainedBy log place lines
        → All (TellsHolding log place statement.user) lines }
    ensures privileged { (log : List Statement) (place : ℕ) (statement : Statement) (lines : List Line)
        → slice_get log place ≡ Some statement → IsExplainedBy log place lines
        → All (TellsPrivilege log place statement.user) lines }
{}

/// The records that explain a place are of grants that were made before it, and so before each later place.
pub fn explanations_name_earlier_grants()
    ensures granted { (log : List Statement) (place : ℕ) (lines : List Line)
        → explained log place ≡ Some lines → LinesAreGranted log place lines }
    ensures later { (log : List Statement) (place later : ℕ) (lines : List Line)
        → explained log place ≡ Some lines → place ≤ later → LinesAreGranted log later lines }
{}
