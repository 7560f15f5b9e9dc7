//! Laws of the definitions that the contracts cite. Each function does nothing: its clauses are
//! the laws.
ghost use Rattle.std.specs.Prelude.{◌≡◌, ◌≢◌, ℕ, List, [], ◌∷◌, ◌++◌, Option, All};
ghost use Rattle.std.specs.Io.KnownBytes.{Keeps, Appends};
ghost use Rattle.line_io.specs.Lines.{lines_of, first_line, other_lines};
ghost use Rattle.line_io.specs.Known.{AppendsFront, MovesOut};

/// Laws of the lines of a text.
pub fn lines_laws()
    ensures none { lines_of [] ≡ [] }
    // The lines are the first one and those of the rest.
    ensures first { (b : ℕ) (bs : List ℕ)
        → lines_of (b ∷ bs) ≡ first_line (b ∷ bs) ∷ lines_of (other_lines (b ∷ bs)) }
    // What is before an LF is a line.
    ensures cut { (line rest : List ℕ) → All (λ b. b ≢ 10) line
        → lines_of (line ++ 10 ∷ rest) ≡ line ∷ lines_of rest }
    // A last piece without LF is a line if it isn't empty.
    ensures last { (b : ℕ) (bs : List ℕ) → All (λ c. c ≢ 10) (b ∷ bs)
        → lines_of (b ∷ bs) ≡ (b ∷ bs) ∷ [] }
{}

/// Laws of what a writer holds, where that is known.
pub fn writing_laws()
    // One piece after another.
    ensures then { (old between new : Option (List ℕ)) (first next : List ℕ)
        → Appends old between first → Appends between new next → Appends old new (first ++ next) }
    ensures kept { (old between new : Option (List ℕ)) (bytes : List ℕ)
        → Appends old between bytes → Keeps between new → Appends old new bytes }
    // A front of what was to be written.
    ensures front { (old new : Option (List ℕ)) (first rest whole : List ℕ)
        → Appends old new first → first ++ rest ≡ whole → AppendsFront old new whole }
    ensures front_kept { (old between new : Option (List ℕ)) (bytes : List ℕ)
        → AppendsFront old between bytes → Keeps between new → AppendsFront old new bytes }
    // What is pending, and what was written of it.
    ensures moved_all { (old new : Option (List ℕ)) (pending : List ℕ)
        → Appends old new pending → MovesOut old new pending [] }
    ensures moved_none { (old : Option (List ℕ)) (pending : List ℕ)
        → MovesOut old old pending pending }
{}
