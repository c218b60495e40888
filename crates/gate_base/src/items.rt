// A list as a value.
ghost use Rattle.std.specs.Prelude.{◌≡◌, IfOk};

use crate::OutOfMemory;
use std::alloc::Global;
use std::marker::Model;

/// A list. Contracts see it as the list of its items, each as they see an item.
pub struct Items<T> {
    items: Vec<T>,
}

// By a call of its own, since a drop that is written out wherever it happens is slow to prove.
impl<T: Drop> Drop for Items<T> {
    fn drop(self) {
        let Self { items } = self;
    }
}

impl<T> Model for Items<T> {
    ghost use Rattle.std.specs.Prelude.{List};

    ghost Value = { List T };

    ghost view = { λ a. a.items.items };
}

impl<T: Drop> Items<T> {
    /// Makes a list of these items.
    pub fn of(items: Vec<T>) -> Items<T>
        ensures { result ≡ items.items }
    {
        Items { items }
    }

    /// Lends the items in their order.
    pub fn items(&self) -> &[T]
        ensures { result.now ≡ self.now }
    {
        &self.items
    }

    /// Gives the items away as a `Vec`.
    pub fn into_vec(self) -> Vec<T>
        ensures { result.items ≡ self }
    {
        let Self { items } = self;
        items
    }
}

impl<T: Copy> Items<T> {
    /// Copies the list. The error is that there is too little memory.
    pub fn copy(&self, alloc: Global) -> Result<Items<T>, OutOfMemory>
        ensures { IfOk result (λ copy. copy ≡ self.now) }
    {
        Ok(Items::of(Vec::from_slice(alloc, self.items())?))
    }
}
