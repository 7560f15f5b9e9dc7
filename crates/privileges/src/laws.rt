//! What holds of all holders and spans.

ghost use Rattle.std.specs.Prelude.{◌≡◌, ◌≤◌, ◌||◌, ℕ, true, List, length};
ghost use Rattle.std.specs.List.{list_any};
ghost use Rattle.model_base.specs.declared.deed.Deed.{Deed};
ghost use Rattle.model_base.specs.declared.deed.Need.{Need};
ghost use Rattle.model_base.specs.declared.statement.Statement.{Statement};
ghost use Rattle.model_base.specs.Outcomes.{deeds_before, owners};
ghost use Rattle.model_base.specs.Privileges.{holds, owns};
ghost use Rattle.privileges.specs.declared.spanning.Span.{Span};
ghost use Rattle.privileges.specs.Holders.{is_holder, is_given_to_all};
ghost use Rattle.privileges.specs.Spans.{AreSpans, is_within};

/// A user holds a privilege exactly if the user owns the table, is a holder by name, or a grant to PUBLIC gives it. None to PUBLIC gives the
/// option.
pub fn holders_are_all()
    ensures all { (owners : List ℕ) (deeds : List Deed) (user : ℕ) (need : Need)
        → holds owners deeds user need
        ≡ (owns owners user need.table || (is_holder owners deeds need user || is_given_to_all owners deeds need)) }
    ensures option { (owners : List ℕ) (deeds : List Deed) (user : ℕ) (need : Need) → need.option ≡ true
        → holds owners deeds user need ≡ (owns owners user need.table || is_holder owners deeds need user) }
{}

/// The spans of a whole log tell of each of its places whether a need was held there.
pub fn spans_tell_of_logs()
    ensures { (log : List Statement) (place user : ℕ) (need : Need) (spans : List Span)
        → place ≤ length log → AreSpans (owners log) (deeds_before log (length log)) user need spans
        → holds (owners log) (deeds_before log place) user need ≡ list_any (is_within place) spans }
{}
