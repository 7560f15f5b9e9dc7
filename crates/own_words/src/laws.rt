//! Decoding undoes coding.

ghost use Rattle.std.specs.Prelude.{◌≡◌, ◌<◌, ◌≤◌, ◌+◌, ◌*◌, ◌^◌, ℕ, ℤ, List, Option, ◌++◌, length};
ghost use Rattle.std.specs.Int.{w64};
ghost use Rattle.std.specs.Int.RustNames.{FitsSigned};
ghost use Rattle.model_base.specs.declared.outcome.Outcome.{Outcome};
ghost use Rattle.model_base.specs.declared.statement.Form.{Form};
ghost use Rattle.model_base.specs.Outcomes.{needs};
ghost use Rattle.model_base.specs.Versions.{accesses_of};
ghost use Rattle.own_words.specs.Words.{FitsColumns, FitsForm, bits, ended_in, header, outcome_from, outputs_of, row_of, row_words, second_detail, signed};

/// The words of an outcome give it, with the records that its revocation ended, whatever words are after them.
pub fn decoding_undoes_coding()
    ensures alone { (form : Form) (outcome : Outcome) → FitsForm form outcome
        → outcome_from form (header form outcome) (ended_in outcome) ≡ outcome }
    ensures followed { (form : Form) (outcome : Outcome) (more : List ℕ) → FitsForm form outcome
        → outcome_from form (header form outcome ++ more) (ended_in outcome) ≡ outcome }
{}

/// The words of a version cell give its row, whatever words are after them.
pub fn rows_are_told()
    ensures { (columns : ℕ) (row : Option (List ℤ)) (more : List ℕ) → FitsColumns columns row
        → row_of columns (row_words columns row ++ more) ≡ row }
{}

/// How many words there are: four and one for each output that a statement has room for, and for each version cell one and
/// one for each column. A statement has at most four needs for each access and four for its deed, so their numbers are words.
pub fn lengths()
    ensures header { (form : Form) (outcome : Outcome) → FitsForm form outcome
        → length (header form outcome) ≡ 4 + outputs_of form }
    ensures row { (columns : ℕ) (row : Option (List ℤ)) → FitsColumns columns row
        → length (row_words columns row) ≡ 1 + columns }
    ensures needs { (form : Form) → length (needs form) ≤ 4 * length (accesses_of form) + 4 }
{}

/// Each whole number of 64 bits has one word, and each word is that of one such number. The detail of an outcome that fits its
/// statement is a word.
pub fn words_fit()
    ensures below { (value : ℤ) → FitsSigned w64 value → bits value < 2 ^ 64 }
    ensures told { (value : ℤ) → FitsSigned w64 value → signed (bits value) ≡ value }
    ensures back { (word : ℕ) → word < 2 ^ 64 → bits (signed word) ≡ word }
    ensures detail { (form : Form) (outcome : Outcome) → FitsForm form outcome → second_detail outcome < 2 ^ 64 }
{}
