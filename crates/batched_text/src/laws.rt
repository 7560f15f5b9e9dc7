//! What holds of the report of a log to which more is appended.

ghost use Rattle.std.specs.Prelude.{◌≡◌, ◌≤◌, ◌+◌, ◌++◌, ℕ, List, length};
ghost use Rattle.model_base.specs.declared.statement.Statement.{Statement};
ghost use Rattle.sequencer.specs.Catalog.{Names};
ghost use Rattle.sequencer.specs.Foretelling.{Begins};
ghost use Rattle.sequencer.specs.Log.{Accepted};
ghost use Rattle.sequencer.specs.Whole.{IsWhole};
ghost use Rattle.bohm_base.specs.Collecting.{places_in, report_text};
ghost use Rattle.bohm_base.specs.declared.collecting.LineOutcome.{LineOutcome};

/// What the report says of lines after more was appended to the log, and of lines in two parts.
pub fn reports_stand()
    ensures longer { (log : Accepted) (more : List Statement) (later : Names) (number place : ℕ) (lines : List LineOutcome)
        → IsWhole log → Begins log.names later → later.version ≡ log.names.version → place + places_in lines ≤ length log.statements
        → report_text (log.statements ++ more) later number place lines
        ≡ report_text log.statements log.names number place lines }
    ensures parts { (log : List Statement) (names : Names) (number place : ℕ) (lines later : List LineOutcome)
        → report_text log names number place (lines ++ later)
        ≡ report_text log names number place lines ++ report_text log names (number + length lines) (place + places_in lines) later }
{}
