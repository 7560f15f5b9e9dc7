//! The words of a report's lines, by number.

ghost use Rattle.std.specs.Prelude.{◌≡◌, ◌==◌, nat_eq, position};
ghost use Rattle.std.specs.List.{starts_with};
ghost use Rattle.summary.specs.Lines.{after_space, is_refused, outcome_of, refusal_of};

/// The words of what became of a place.
pub const OUTCOME_WORDS: [&str; 7] = [
    "created",
    "done",
    "granted",
    "revoked",
    "denied",
    "aborted",
    "undeclared",
];

/// The words of faults of lines, and of refusals of the log.
pub const REFUSAL_WORDS: [&str; 19] = [
    "too-long",
    "not-ascii",
    "empty",
    "unknown-word",
    "bad-number",
    "bad-name",
    "too-many-steps",
    "too-many-accesses",
    "bad-register",
    "too-many-grantees",
    "duplicate-grantee",
    "unknown-table",
    "table-exists",
    "bad-columns",
    "duplicate-access",
    "bad-column-number",
    "skip-past-end",
    "log-full",
    "too-many-names",
];

/// Whether the line is that of a line that was refused.
pub(crate) fn is_refused(line: &[u8]) -> bool
    ensures { result ≡ is_refused line.now }
{
    line.starts_with(b"line ")
}

/// Where the first space is.
fn first_space(text: &[u8]) -> Option<usize>
    ensures { result ≡ position (λ byte. byte == 32) text.now }
{
    text.iter().position(|byte| *byte == b' ')
}

/// What is after the first space.
fn after_space(text: &[u8]) -> &[u8]
    ensures { result.now ≡ after_space text.now }
{
    match first_space(text) {
        Some(space) => &text[space + 1..],
        None => &[],
    }
}

/// Which of these words a text begins with.
fn word_number(words: &[&str], text: &[u8]) -> Option<usize>
    ensures { result ≡ position (λ word. starts_with nat_eq text.now word.now) words.now }
{
    words
        .iter()
        .position(|word| text.starts_with(word.as_bytes()))
}

/// What became of a place, by the number of its word.
pub(crate) fn outcome_of(line: &[u8]) -> Option<usize>
    ensures { result ≡ outcome_of line.now }
{
    if is_refused(line) {
        return None;
    }
    word_number(&OUTCOME_WORDS, after_space(line))
}

/// Why a line was refused, by the number of its word.
pub(crate) fn refusal_of(line: &[u8]) -> Option<usize>
    ensures { result ≡ refusal_of line.now }
{
    if !is_refused(line) {
        return None;
    }
    word_number(&REFUSAL_WORDS, after_space(after_space(after_space(line))))
}
