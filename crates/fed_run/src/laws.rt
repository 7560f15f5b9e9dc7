//! What holds of what a run gave.

ghost use Rattle.std.specs.Prelude.{◌++◌, ℕ, List};
ghost use Rattle.fed_run.specs.declared.fed.FedRun.{FedRun};
ghost use Rattle.fed_run.specs.Stands.{BeginsReport, MayCome, IsFed, unsent};

/// What a run has given so far, and what waits to be given, begins the report of each text that begins with what it was given.
pub fn what_was_given_begins_the_report()
    ensures { (run : FedRun) (input written future : List ℕ) → IsFed run input written → MayCome run future
        → BeginsReport (input ++ future) (written ++ unsent run) }
{}
