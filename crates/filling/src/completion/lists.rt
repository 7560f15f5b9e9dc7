//! Lists of numbers in one vector.

ghost use Rattle.std.specs.Prelude.{◌≡◌, ◌++◌, ◌∷◌, [], OnOk, slice_index_or};

use std::alloc::{AllocError, Global};
use std::marker::Model;

/// Where a list lies among the numbers.
#[derive(Clone, Copy)]
pub(crate) struct Part {
    begin: usize,
    count: usize,
}

/// Lists of numbers, which lie one after another in one vector.
#[derive(Drop)]
pub(crate) struct Lists {
    numbers: Vec<u64>,
    parts: Vec<Part>,
}

impl Model for Lists {
    ghost use Rattle.std.specs.Prelude.{List, ℕ};
    ghost use Rattle.filling.specs.Lists.{AreWithin, lists_in};

    ghost Value = { List (List ℕ) };

    ghost view = { λ lists. lists_in lists.numbers.items lists.parts.items };

    ghost invariant = { λ lists. AreWithin lists.numbers.items lists.parts.items };
}

impl Lists {
    /// No list. It doesn't allocate.
    pub(crate) fn new(alloc: Global) -> Self
        ensures { result ≡ [] }
    {
        Lists {
            numbers: Vec::new(alloc),
            parts: Vec::new(alloc),
        }
    }

    /// The list of an index; past the last it is empty.
    pub(crate) fn at(&self, index: usize) -> &[u64]
        ensures { result.now ≡ slice_index_or self.now index [] }
    {
        if index < self.parts.len() {
            let part = self.parts[index];
            &self.numbers[part.begin..part.begin + part.count]
        } else {
            &[]
        }
    }

    /// Appends a list to the others. On `Err`, out of memory.
    pub(crate) fn push(&mut self, list: &[u64]) -> Result<(), AllocError>
        ensures { OnOk result (self.new ≡ self.old ++ list.now ∷ []) }
    {
        let begin = self.numbers.len();
        self.numbers.extend_from_slice(list)?;
        self.parts.push(Part {
            begin,
            count: list.len(),
        })?;
        Ok(())
    }
}
