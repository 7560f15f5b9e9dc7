//! What references are.

ghost use Rattle.std.specs.Prelude.{ℕ, Bool, List};
ghost use Rattle.model_base.specs.References.{last_before};
ghost use Rattle.model_base.specs.declared.statement.Statement.{Statement};
ghost use Rattle.placing.specs.Laws.{IsLast};

/// A reference, to a writer of a row as to a deed on a table, is to the last earlier place of the batch that is one, or to
/// the base where the batch has none before the place.
pub fn references_are_last()
    ensures { (test : Statement → Bool) (log : List Statement) (first place : ℕ)
        → IsLast test log first place (last_before test log first place) }
{}
