//! Several items, dropped one after another.

ghost use Rattle.std.specs.Prelude.{◌≡◌, ◌++◌};

use crate::past::Past;

impl<T> Past<T> {
    /// These items were dropped too, in order.
    pub fn append(&mut self, items: &[T])
        ensures { self.new.items ≡ self.old.items ++ items.now }
    {
        for item in items {
            let longer = self.with(item);
            *self = longer;
        }
    }
}
