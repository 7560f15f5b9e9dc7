//! What holds of the versions that the places of a log leave.

ghost use Rattle.std.specs.Prelude.{◌≡◌, ◌<◌, ◌≤◌, ◌++◌, ℕ, List, length, map};
ghost use Rattle.model_base.specs.Growing.{NeedsOwnTables};
ghost use Rattle.model_base.specs.declared.statement.Statement.{Statement};
ghost use Rattle.model_base.specs.Versions.{version_cells};
ghost use Rattle.chains.specs.declared.version.Version.{Version};
ghost use Rattle.chains.specs.Store.{AreBetween, IsRight, Store, versions_at, versions_between};

/// The versions of the places of a log are in the order of these places, so they may be appended.
pub fn versions_of_logs_are_in_order()
    ensures { (log : List Statement) (first end : ℕ) → first ≤ end → AreBetween first end (versions_between log first end) }
{}

/// The rows of the versions of a place are its version cells.
pub fn versions_have_the_cells()
    ensures { (log : List Statement) (place : ℕ)
        → map (λ (version : Version). version.row) (versions_at log place) ≡ version_cells log place }
{}

/// Statements that are appended to a log, each need of which is on one of its own tables, change nothing of the versions that
/// its places leave. So a store that is right for the log, and goes no further than it, is right for the longer log.
pub fn right_stores_stay_right()
    ensures at { (log more : List Statement) (place : ℕ) → NeedsOwnTables log → place < length log
        → versions_at (log ++ more) place ≡ versions_at log place }
    ensures between { (log more : List Statement) (first end : ℕ) → NeedsOwnTables log → end ≤ length log
        → versions_between (log ++ more) first end ≡ versions_between log first end }
    ensures right { (log more : List Statement) (store : Store) → NeedsOwnTables log → store.end ≤ length log
        → IsRight log store → IsRight (log ++ more) store }
{}
