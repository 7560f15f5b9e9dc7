//! Which finished places are kept, and where batches end.

ghost use Rattle.std.specs.Prelude.{◌≡◌, ◌≤◌, ◌-◌};
ghost use Rattle.engine.specs.Engine.{finished};
ghost use Rattle.batched_text.specs.History.{IsKeptBy, MayKeep};
ghost use Rattle.batched_text.specs.declared.history.History.{History};

use crate::settings::{Arrival, Settings};
use engine::Engine;

/// So many more finished places may be kept than are to be, before some are dropped.
const MOST_SPARE_PLACES: u64 = 64;

/// Of which finished places the statements and outcomes are kept for those who look at them later.
#[derive(Clone, Copy)]
pub(crate) enum History {
    /// Of all of them.
    Kept,
    /// Of none: they are dropped with each batch.
    Dropped,
    /// Of this many of the last ones at least.
    Last(u64),
}

impl History {
    ghost use Rattle.std.specs.Prelude.{◌≡◌};
    ghost use Rattle.batched_text.specs.History.{last_places};

    /// Of this many of the last places.
    pub(crate) fn last(places: u64) -> Self
        ensures { result ≡ last_places places }
    {
        if places == 0 {
            History::Dropped
        } else {
            History::Last(places)
        }
    }
}

/// Drops statements and outcomes of finished places but the last that are to be kept, where there are enough to drop.
fn forget_all_but(engine: &mut Engine, keep: u64)
    requires { engine.old.dropped ≤ finished engine.old - keep }
    ensures kept { IsKeptBy (History.Last keep) (finished engine.new) engine.new }
    ensures rest { engine.new ≡ record engine.old { dropped = engine.new.dropped } }
{
    let end = engine.finished();
    let kept = end - engine.log().dropped();
    if kept >= keep && kept - keep >= keep.max(MOST_SPARE_PLACES) {
        engine.forget_to(end - keep);
    }
}

/// Forgets what is finished, but for what is kept.
pub(crate) fn forget_finished(engine: &mut Engine, history: History)
    requires { MayKeep history engine.old }
    ensures kept { IsKeptBy history (finished engine.new) engine.new }
    ensures rest { engine.new ≡ record engine.old { dropped = engine.new.dropped } }
{
    match history {
        History::Kept => {}
        History::Dropped => engine.forget(),
        History::Last(keep) => forget_all_but(engine, keep),
    }
}

/// Where batches end, beside the end of the input.
#[derive(Clone, Copy)]
pub(crate) enum Cut {
    /// Where they are full.
    WhenFull,
    /// Also where no whole line is available, before the reader is asked: no line waits meanwhile.
    BeforeReads,
}

impl Cut {
    ghost use Rattle.std.specs.Prelude.{◌≡◌};
    ghost use Rattle.batched_text.specs.History.{cut_for};

    /// Where the batches of a log end whose bytes arrive so.
    pub(crate) fn of(arrival: Arrival) -> Self
        ensures { result ≡ cut_for arrival }
    {
        match arrival {
            Arrival::Live => Cut::BeforeReads,
            Arrival::Stored => Cut::WhenFull,
        }
    }
}

/// How a log is run in batches, what is kept of them, and where they end.
#[derive(Clone, Copy)]
pub(crate) struct Plan {
    pub(crate) settings: Settings,
    pub(crate) history: History,
    pub(crate) cut: Cut,
}

impl Plan {
    ghost use Rattle.std.specs.Prelude.{◌≡◌, true};
    ghost use Rattle.batched_text.specs.declared.history.Cut.{Cut};
    ghost use Rattle.batched_text.specs.declared.history.History.{History};

    /// Whether a statement may be run as a batch of its own, of which nothing is kept.
    pub(crate) fn runs_singly(&self) -> bool
        ensures cut { result ≡ true → self.now.cut ≡ Cut.BeforeReads }
        ensures dropped { result ≡ true → self.now.history ≡ History.Dropped }
    {
        match (self.cut, self.history) {
            (Cut::BeforeReads, History::Dropped) => true,
            (Cut::WhenFull, _) | (_, History::Kept | History::Last(_)) => false,
        }
    }
}
