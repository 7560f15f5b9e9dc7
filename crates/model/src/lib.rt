//! The slow serial run of a log, by the definitions.
//!
//! `serial` returns the outcome of each place of a list of statements. It follows the definitions of `model_base` one
//! by one, so that it can be read beside them: what is held is found by replaying all earlier deeds, and what took a
//! privilege away by replaying each beginning of them, which takes up to the cube of their number. It is what the
//! faster ways are compared with.
//!
//! On `Err`, out of memory. Each body has to fit a window, which holds for every statement of a log.
#![tactic(auto)]

ghost use Rattle.std.specs.Prelude.{◌≡◌, ℕ, All, IfOk, slice_get};
ghost use Rattle.model_base.specs.Outcomes.{outcome};
ghost use Rattle.body.specs.Premises.{IsRunnable};

mod deeds;
mod missing;
mod replay;
mod serial_state;

use model_base::{HashSeed, Outcome, Place, Statement};
use replay::owners;
use serial_state::State;
use std::alloc::{AllocError, Global};

/// The outcome of each place of a log, found by following the definition: plain and slow. Rows are found under the seed.
///
/// What is held before a statement is found by making all deeds before it again, which takes up to D² steps for D deeds. Where a statement
/// is denied, that is done for each beginning of those deeds too, which takes up to D³. So N statements take up to N·D² steps and D³ for
/// each denied one, and the bodies what `body::run_on` takes for them.
pub fn serial(
    alloc: Global,
    statements: &[Statement],
    seed: HashSeed,
) -> Result<Vec<Outcome>, AllocError>
    requires { All IsRunnable statements.now }
    ensures { IfOk result (λ outcomes. (place : ℕ) → slice_get outcomes.items place ≡ outcome statements.now place) }
{
    let owners = owners(alloc, statements)?;
    let mut state = State::seeded(alloc, seed);
    let mut outcomes = Vec::new(alloc);
    for (place, statement) in statements.iter().enumerate() {
        let outcome = state.execute(alloc, &owners, place as Place, statement)?;
        outcomes.push(outcome)?;
    }
    Ok(outcomes)
}
