//! How the workers of a batch are told to stop.

use std::sync::atomic::{AtomicBool, Ordering};

/// Whether the workers of a batch were told to stop.
#[derive(Drop)]
pub(crate) struct Stop {
    is_told: AtomicBool,
}

/// That the workers of a batch were told to stop. Nothing but a `Stop` makes one, so whoever returns it has told the others, or was told.
#[derive(Drop)]
pub(crate) struct Stopped(());

impl Stop {
    /// Nobody was told.
    pub(crate) fn new() -> Self {
        Stop {
            is_told: AtomicBool::new(false),
        }
    }

    /// Tells the workers to stop.
    pub(crate) fn tell(&self) -> Stopped {
        self.is_told.store(true, Ordering::SeqCst);
        Stopped(())
    }

    /// On `Err`, the workers were told to stop.
    pub(crate) fn ask(&self) -> Result<(), Stopped> {
        if self.is_told.load(Ordering::SeqCst) {
            return Err(Stopped(()));
        }
        Ok(())
    }
}
