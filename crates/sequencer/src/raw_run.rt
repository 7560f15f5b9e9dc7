//! A RUN that was read, wherever its parts stay.

use log_text::{Name, RawAccess, RawDeed, RawForm, RawStep};
use model_base::Items;

/// A RUN that was read: its user, accesses and steps, and its deed if it has one.
#[derive(Clone, Copy)]
pub(crate) struct RawRun<'r, 'a> {
    pub(crate) user: &'r Name<'a>,
    pub(crate) accesses: &'r [RawAccess<'a>],
    pub(crate) steps: &'r [RawStep<'a>],
    pub(crate) deed: &'r Option<RawDeed<'a>>,
}

impl<'r, 'a> RawRun<'r, 'a> {
    ghost use Rattle.std.specs.Prelude.{◌≡◌};
    ghost use Rattle.sequencer.specs.Admitting.{run_sentence};

    /// The RUN of a statement with this user and these parts.
    #[inline(always)]
    pub(crate) fn of(
        user: &'r Name<'a>,
        accesses: &'r Items<RawAccess<'a>>,
        steps: &'r Items<RawStep<'a>>,
        deed: &'r Option<RawDeed<'a>>,
    ) -> Self
        ensures { run_sentence result ≡ record { user = user.now; form = RawForm.Run accesses.now steps.now deed.now } }
    {
        RawRun {
            user,
            accesses: accesses.as_slice(),
            steps: steps.as_slice(),
            deed,
        }
    }
}
