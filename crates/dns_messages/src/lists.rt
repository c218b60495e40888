// Lists in messages.
ghost use Rattle.std.specs.Prelude.{◌≡◌, []};

use crate::message::Resource;
use std::marker::Model;

/// A list of records. One without a record holds no memory.
#[derive(Drop)]
pub struct Resources {
    items: Option<Vec<Resource>>,
}

impl Model for Resources {
    ghost use Rattle.std.specs.Prelude.{List};
    ghost use Rattle.dns_messages.specs.declared.message.Resource.{Resource};

    ghost Value = { List Resource };

    ghost use Rattle.dns_messages.specs.Held.{held};

    ghost view = { λ a. held a.items };
}

impl Resources {
    ghost use Rattle.dns_messages.specs.Held.{held};

    /// No records.
    pub fn none() -> Resources
        ensures { result ≡ [] }
    {
        Resources { items: None }
    }

    /// The list of these records.
    pub fn of(items: Vec<Resource>) -> Resources
        ensures { result ≡ items.items }
    {
        Resources { items: Some(items) }
    }

    /// The records in their order.
    pub fn items(&self) -> &[Resource]
        ensures { result.now ≡ self.now }
    {
        match &self.items {
            Some(items) => items,
            None => &[],
        }
    }

    /// The records themselves, in their order, where memory is held for some.
    pub fn into_items(self) -> Option<Vec<Resource>>
        ensures { held result ≡ self }
    {
        self.items
    }
}
