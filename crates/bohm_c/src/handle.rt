//! A run that C keeps by its pointer.

ghost use Rattle.std.specs.Prelude.{◌≡◌, true, false, IfSome, IfNone, Option, Some, None};
ghost use Rattle.fed_run.specs.declared.fed.FedRun.{FedRun};
ghost use Rattle.bohm_c.specs.Held.{handle_owns, run_coded};

use crate::parts::Parts;
use fed_run::FedRun;
use std::alloc::Global;
use std::boxed::Box;
use std::marker::Model;

/// What C keeps of a run. C makes one of zero bytes, which is closed, and hands it to each call.
#[repr(C)]
pub struct Handle {
    at: *mut u8,
    is_open: bool,
    alloc: Global,
    pub ghost run: { Option FedRun } by { run_coded },
}

impl Model for Handle {
    ghost also_owns = { λ h. handle_owns h.is_open h.alloc h.at h.run };
}

/// A run may move to another thread, and so may what keeps it.
unsafe impl Send for Handle {}

impl Handle {
    /// One that keeps the run of these parts.
    fn of_parts(parts: Parts<FedRun, Global>) -> Handle
        ensures { result.run ≡ Some parts.value }
    {
        let Parts { ptr, alloc } = parts;
        Handle {
            at: ptr as *mut u8,
            is_open: true,
            alloc,
        }
    }

    /// The parts of the run that it keeps, if it is open.
    fn into_parts(self) -> Option<Parts<FedRun, Global>>
        ensures some { IfSome result (λ parts. self.run ≡ Some parts.value) }
        ensures none { IfNone result (self.run ≡ None) }
    {
        let Handle { at, is_open, alloc } = self;
        if is_open {
            return Some(Parts {
                ptr: at as *mut FedRun,
                alloc,
            });
        }
        None
    }

    /// One that keeps nothing.
    pub(crate) fn closed(alloc: Global) -> Handle
        ensures { result.run ≡ None }
    {
        Handle {
            at: std::ptr::null_mut::<u8>(),
            is_open: false,
            alloc,
        }
    }

    /// One that keeps the run.
    pub(crate) fn of(run: Box<FedRun>) -> Handle
        ensures { result.run ≡ Some run.value }
    {
        Handle::of_parts(Parts::of(run))
    }

    /// The run that it keeps, if it is open.
    pub(crate) fn into_box(self) -> Option<Box<FedRun>>
        ensures some { IfSome result (λ run. self.run ≡ Some run.value) }
        ensures none { IfNone result (self.run ≡ None) }
    {
        match self.into_parts() {
            Some(parts) => Some(parts.into_box()),
            None => None,
        }
    }
}
