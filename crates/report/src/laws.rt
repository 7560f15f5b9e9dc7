//! What holds of every text and its report.

ghost use Rattle.std.specs.Prelude.{◌≡◌, ℕ, List};
ghost use Rattle.std.specs.List.{flat_map};
ghost use Rattle.line_io.specs.Lines.{lines_of};
ghost use Rattle.model_base.specs.declared.statement.Statement.{Statement};
ghost use Rattle.report.specs.Denials.{HasLineFor, IsTakenAt, report_lines};
ghost use Rattle.report.specs.Report.{AreParsedLines, IsReport, ParsedLine};

/// Each text has a report, and no other. The function does nothing: its clauses are the law.
pub fn each_text_has_one_report()
    ensures some { (input : List ℕ) → (text : List ℕ) × IsReport input text }
    ensures one { (input : List ℕ) (text other : List ℕ) → IsReport input text → IsReport input other → text ≡ other }
{}

/// A report says exactly who was denied, and why. It is one line for each line of its text but the heading of version 2. The line of a
/// RUN or a deed that the log took says `denied` exactly if its user lacks one of its needs by the deeds before its place; then it names
/// the first such need, and its cause: the place of the revocation that took it away last, or `never`.
pub fn reports_tell_who_was_denied()
    ensures lines { (input text : List ℕ) → IsReport input text → (readings : List ParsedLine)
        × AreParsedLines (lines_of input) readings × (text ≡ flat_map (λ line. line) (report_lines readings)) }
    ensures denials { (readings : List ParsedLine) (index place : ℕ) (statement : Statement)
        → IsTakenAt readings index place statement → HasLineFor readings index place statement }
{}
