//! The counts of lines.

ghost use Rattle.std.specs.Prelude.{◌≡◌, ◌<◌, ◌∷◌, ◌++◌, ℕ, List, [], length, not, slice_index};
ghost use Rattle.summary.specs.Counts.{AreLineCounts, is_number, raised_if};

use crate::wording::{is_refused, outcome_of, refusal_of};

/// How many lines of a report say what. Each count stops at `u64::MAX`.
#[derive(Drop)]
pub struct Counts {
    /// All lines.
    pub lines: u64,
    /// The lines of places.
    pub places: u64,
    /// What became of the places, by the numbers of `OUTCOME_WORDS`.
    pub outcomes: [u64; 7],
    /// The lines of refused lines.
    pub refused: u64,
    /// Why they were refused, by the numbers of `REFUSAL_WORDS`.
    pub refusals: [u64; 19],
}

/// Counts one more, if there is one.
fn raise_if(count: &mut u64, is: bool)
    ensures { count.new ≡ raised_if is count.old }
{
    if is {
        *count = count.saturating_add(1);
    }
}

/// Counts one more at the number, if there is one.
fn raise_at(counts: &mut [u64], number: Option<usize>)
    ensures { (k : ℕ) → k < length counts.new
        → slice_index counts.new k ≡ raised_if (is_number k number) (slice_index counts.old k) }
{
    if let Some(at) = number
        && at < counts.len()
    {
        counts[at] = counts[at].saturating_add(1);
    }
}

impl Counts {
    /// The counts of no lines.
    pub fn new() -> Counts
        ensures { AreLineCounts [] result }
    {
        Counts {
            lines: 0,
            places: 0,
            outcomes: [0; 7],
            refused: 0,
            refusals: [0; 19],
        }
    }

    /// Counts one more line.
    pub(crate) fn count(&mut self, line: &[u8])
        ensures { (lines : List (List ℕ)) → AreLineCounts lines self.old → AreLineCounts (lines ++ line.now ∷ []) self.new }
    {
        let is_refused = is_refused(line);
        raise_if(&mut self.lines, true);
        raise_if(&mut self.places, !is_refused);
        raise_if(&mut self.refused, is_refused);
        raise_at(&mut self.outcomes, outcome_of(line));
        raise_at(&mut self.refusals, refusal_of(line));
    }
}
