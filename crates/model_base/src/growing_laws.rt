//! What holds of a log to which statements are appended.

ghost use Rattle.std.specs.Prelude.{◌≡◌, ◌<◌, ◌≤◌, ◌++◌, ℕ, List, length};
ghost use Rattle.model_base.specs.Growing.{NeedsOwnTables};
ghost use Rattle.model_base.specs.Outcomes.{deeds_before, outcome, rows_before, world_before};
ghost use Rattle.model_base.specs.References.{batch_references, prior, references, writer};
ghost use Rattle.model_base.specs.Versions.{version_cells};
ghost use Rattle.model_base.specs.declared.statement.Access.{Access};
ghost use Rattle.model_base.specs.declared.statement.Statement.{Statement};

/// Statements that are appended to a log change nothing of its places: what is before each of them, and before the next one, their outcomes
/// and version cells, and what they are referred to. Their tables have later numbers, so the condition is that each need of the log is on a
/// table of the log; to what a place is referred has no condition.
pub fn earlier_places_stand()
    ensures world { (log more : List Statement) (place : ℕ) → NeedsOwnTables log → place ≤ length log
        → world_before (log ++ more) place ≡ world_before log place }
    ensures rows { (log more : List Statement) (place : ℕ) → NeedsOwnTables log → place ≤ length log
        → rows_before (log ++ more) place ≡ rows_before log place }
    ensures deeds { (log more : List Statement) (place : ℕ) → NeedsOwnTables log → place ≤ length log
        → deeds_before (log ++ more) place ≡ deeds_before log place }
    ensures outcome { (log more : List Statement) (place : ℕ) → NeedsOwnTables log → place < length log
        → outcome (log ++ more) place ≡ outcome log place }
    ensures cells { (log more : List Statement) (place : ℕ) → NeedsOwnTables log → place < length log
        → version_cells (log ++ more) place ≡ version_cells log place }

    ensures writer { (log more : List Statement) (first place : ℕ) (access : Access) → place ≤ length log
        → writer (log ++ more) first place access ≡ writer log first place access }
    ensures prior { (log more : List Statement) (first place table : ℕ) → place ≤ length log
        → prior (log ++ more) first place table ≡ prior log first place table }
    ensures references { (log more : List Statement) (first place : ℕ) → place < length log
        → references (log ++ more) first place ≡ references log first place }
    ensures batch { (log more : List Statement) (first end : ℕ) → end ≤ length log
        → batch_references (log ++ more) first end ≡ batch_references log first end }
{}
