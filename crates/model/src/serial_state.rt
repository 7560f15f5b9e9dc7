//! What is before a place of a log, and what the place makes of it.

ghost use Rattle.std.specs.Prelude.{◌≡◌, None, IfOk};
ghost use Rattle.model_base.specs.Outcomes.{at_place, empty_world, judged};
ghost use Rattle.model_base.specs.Privileges.{kept};
ghost use Rattle.body.specs.Premises.{IsRunnable};
ghost use Rattle.model.specs.State.{world_of};

use crate::deeds::make;
use crate::missing::first_missing;
use crate::replay::{cause, kept};
use body::{BodyEnd, RowMap, run_on};
use model_base::{Deed, Form, Grant, HashSeed, Outcome, Place, Statement, User};
use std::alloc::{AllocError, Global};

/// What is before a place of a log: the rows, and the deeds made so far.
#[derive(Drop)]
pub(crate) struct State {
    rows: RowMap,
    deeds: Vec<Deed>,
}

impl State {
    /// Before the first place there is no row and no deed. Rows are found under this seed. It doesn't allocate.
    pub(crate) fn seeded(alloc: Global, seed: HashSeed) -> Self
        ensures { world_of result ≡ empty_world }
    {
        State {
            rows: RowMap::seeded(alloc, seed),
            deeds: Vec::new(alloc),
        }
    }

    /// The outcome of the statement of this place, after which the state is that before the next place. The owners are
    /// those of the whole log.
    pub(crate) fn execute(
        &mut self,
        alloc: Global,
        owners: &[User],
        place: Place,
        statement: &Statement,
    ) -> Result<Outcome, AllocError>
        requires { IsRunnable statement.now }
        ensures { IfOk result (λ outcome. at_place owners.now place (world_of self.old) statement.now ≡ (outcome, world_of self.new)) }
    {
        if let Form::Create { .. } = &statement.form {
            return Ok(Outcome::Created);
        }
        let grants = kept(alloc, owners, &self.deeds)?;
        match first_missing(owners, &grants, statement.user, &statement.form) {
            Some(need) => {
                let cause = cause(alloc, owners, &self.deeds, statement.user, &need)?;
                Ok(Outcome::Denied { need, cause })
            }
            None => self.run(alloc, owners, &grants, place, statement),
        }
    }

    /// Runs the body of a statement whose needs are all held, and makes its deeds if the body completes. The grants are
    /// those in force.
    fn run(
        &mut self,
        alloc: Global,
        owners: &[User],
        grants: &[Grant],
        place: Place,
        statement: &Statement,
    ) -> Result<Outcome, AllocError>
        requires runnable { IsRunnable statement.now }
        requires in_force { grants.now ≡ kept owners.now self.old.deeds.items }
        ensures { IfOk result (λ outcome. judged owners.now place (world_of self.old) statement.now None ≡ (outcome, world_of self.new)) }
    {
        let (end, outputs) = run_on(statement, &mut self.rows)?;
        match end {
            BodyEnd::Completed => {
                let mut made = statement.deeds_at(place);
                let deed = make(alloc, owners, grants, &mut self.deeds, &mut made)?;
                Ok(Outcome::Done { outputs, deed })
            }
            BodyEnd::Aborted { step, reason } => Ok(Outcome::Aborted { step, reason }),
            BodyEnd::Undeclared { step } => Ok(Outcome::Undeclared { step }),
        }
    }
}
