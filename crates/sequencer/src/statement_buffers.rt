//! Room for what a statement needs.

ghost use Rattle.std.specs.Prelude.{◌≡◌, ◌≤◌, [], List, Option, IfOk, OnOk, vec_capacity};
ghost use Rattle.model_base.specs.declared.statement.DeedForm.{DeedForm};
ghost use Rattle.model_base.specs.declared.statement.Access.{Access};
ghost use Rattle.model_base.specs.declared.statement.Form.{Form};
ghost use Rattle.model_base.specs.declared.statement.Step.{Step};
ghost use Rattle.sequencer.specs.Known.{HasRoom};

use log_text::RawForm;
use model_base::{Access, Form, Items, Statement, Step};
use std::alloc::{AllocError, Global};
use std::mem;

/// Where the accesses and the steps of a statement go when they are numbered. `admit` takes what a statement needs out of
/// it, and `take_over` takes it from a statement that is of no more use: so one after another needs no memory.
#[derive(Drop)]
pub struct StatementBuffers {
    pub(crate) accesses: Vec<Access>,
    pub(crate) steps: Vec<Step>,
}

impl StatementBuffers {
    /// Room for nothing yet. It doesn't allocate.
    pub fn new(alloc: Global) -> Self
        ensures accesses { result.accesses.items ≡ [] }
        ensures steps { result.steps.items ≡ [] }
    {
        StatementBuffers {
            accesses: Vec::new(alloc),
            steps: Vec::new(alloc),
        }
    }

    /// Makes room for this many accesses and steps. On `Err`, out of memory.
    #[inline(always)]
    pub(crate) fn reserve_for(&mut self, accesses: usize, steps: usize) -> Result<(), AllocError>
        ensures { OnOk result ((self.new.accesses.items ≡ []) × (self.new.steps.items ≡ [])
            × (accesses ≤ vec_capacity self.new.accesses) × (steps ≤ vec_capacity self.new.steps)) }
    {
        self.accesses.clear();
        self.steps.clear();
        if self.accesses.capacity() < accesses {
            self.accesses.reserve_exact(accesses)?;
        }
        if self.steps.capacity() < steps {
            self.steps.reserve_exact(steps)?;
        }
        Ok(())
    }

    /// Makes room for each access and each step of a statement. On `Err`, out of memory.
    pub(crate) fn reserve(&mut self, form: &RawForm<'_>) -> Result<(), AllocError>
        ensures { OnOk result (HasRoom self.new form.now) }
    {
        let (accesses, steps) = match form {
            RawForm::Run {
                accesses,
                steps,
                ..
            } => (accesses.as_slice().len(), steps.as_slice().len()),
            RawForm::Create { .. } | RawForm::Deed(_) => (0, 0),
        };
        self.reserve_for(accesses, steps)
    }

    /// Takes over what a statement holds that is of no more use, with what is in it.
    #[inline(always)]
    pub fn take_over(&mut self, alloc: Global, statement: &mut Statement)
        ensures accesses { (accesses : List Access) (steps : List Step) (deed : Option DeedForm)
            → statement.old.form ≡ Form.Run accesses steps deed → self.new.accesses.items ≡ accesses }
        ensures steps { (accesses : List Access) (steps : List Step) (deed : Option DeedForm)
            → statement.old.form ≡ Form.Run accesses steps deed → self.new.steps.items ≡ steps }
    {
        if let Form::Run {
            accesses,
            steps,
            ..
        } = &mut statement.form
        {
            self.accesses = mem::replace(accesses, Items::empty(alloc)).into_vec();
            self.steps = mem::replace(steps, Items::empty(alloc)).into_vec();
        }
    }
}
