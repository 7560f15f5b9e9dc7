//! What the own words of every log's places give.

ghost use Rattle.std.specs.Prelude.{◌≡◌, ℕ, List, Some, slice_get};
ghost use Rattle.model_base.specs.declared.outcome.Outcome.{Outcome};
ghost use Rattle.model_base.specs.declared.statement.Statement.{Statement};
ghost use Rattle.model_base.specs.Outcomes.{outcome};
ghost use Rattle.own_words.specs.Places.{words_at};
ghost use Rattle.own_words.specs.Words.{FitsForm, ended_in, outcome_from};
ghost use Rattle.evaluation.specs.Keeping.{ForOutcomes, KeepsToSteps};

/// Each outcome of a log fits the form of its statement. It has no more outputs than there are OUT steps, and a step at which it ended is
/// one of the statement's. And it is such that words give it, if the statements of the log fit the columns of their tables, the body of
/// this one fits a window, and the numbers of its steps and its place have 64 bits, as in every log.
pub fn outcomes_fit_their_forms()
    ensures steps { (log : List Statement) (place : ℕ) (statement : Statement) (found : Outcome)
        → slice_get log place ≡ Some statement → outcome log place ≡ Some found
        → KeepsToSteps statement.form found }
    ensures words { ForOutcomes (λ columns log place statement found. FitsForm statement.form found) }
{}

/// The own words of a place of such a log, decoded with the records that its revocation ended, are its outcome.
pub fn words_tell_outcomes()
    ensures { ForOutcomes (λ columns log place statement found.
        outcome_from statement.form (words_at columns log place) (ended_in found) ≡ found) }
{}
