//! The items that were dropped from a list, which only clauses read.

ghost use Rattle.std.specs.Prelude.{◌≡◌, List, [], ◌∷◌};
ghost use Rattle.std.specs.Borrow.{ftrue};

use std::marker::{Model, PhantomData};

/// The items that were dropped so far, in order. It has no bytes, and its calls do nothing when the program runs.
#[derive(Drop)]
pub struct Past<T> {
    of: PhantomData<T>,
    pub ghost items: { List T },
}

impl<T> Model for Past<T> {
    ghost also_owns = { λ _. ftrue };
}

// It owns nothing.
unsafe impl<T: Send> Send for Past<T> {}

unsafe impl<T: Sync> Sync for Past<T> {}

impl<T> Past<T> {
    ghost use Rattle.std.specs.Prelude.{◌++◌};

    /// Nothing was dropped yet.
    pub fn new() -> Past<T>
        ensures { result.items ≡ [] }
    {
        Past { of: PhantomData }
    }

    /// One more item was dropped.
    pub fn with(&self, item: &T) -> Past<T>
        ensures { result.items ≡ self.now.items ++ item.now ∷ [] }
    {
        let _ = item;
        Past { of: PhantomData }
    }
}
