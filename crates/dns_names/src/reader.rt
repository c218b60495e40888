// Reading many names of one message.
ghost use Rattle.std.specs.Prelude.{◌≡◌, ℕ, List, IfOk, Err};
ghost use Rattle.dns_names.specs.Names.{NameAt};
ghost use Rattle.dns_names.specs.Walk.{name_at};
ghost use Rattle.dns_names.specs.Stops.{ReturnsRead};

use crate::memo::{Memo, memo_of, read_on};
use crate::name::{Name, name_of};
use crate::stop::NameStop;
use gate_base::OutOfMemory;
use std::alloc::Global;
use std::marker::Model;

/// A message of which many names are read. What was read from a place on is kept, so that the labels and pointers there aren't
/// walked again for each name that leads there. Contracts see the message's octets.
#[derive(Drop)]
pub struct NameReader<'a> {
    message: &'a [u8],
    memo: Option<Memo>,
}

impl<'a> Model for NameReader<'a> {
    ghost use Rattle.std.specs.Prelude.{ℕ, List, IfSome};
    ghost use Rattle.dns_names.specs.Inside.Memo.{IsMemo};

    ghost Value = { List ℕ };

    ghost view = { λ r. r.message.now };

    ghost invariant = { λ r. IfSome r.memo (IsMemo r.message.now) };
}

impl<'a> NameReader<'a> {
    /// The reader of a message.
    pub fn of(alloc: Global, message: &'a [u8]) -> Result<NameReader<'a>, OutOfMemory>
        ensures { IfOk result (λ reader. reader ≡ message.now) }
    {
        let memo = memo_of(alloc, message)?;
        Ok(NameReader { message, memo })
    }

    /// The octets of the message.
    pub fn message(&self) -> &[u8]
        ensures { result.now ≡ self.now }
    {
        self.message
    }

    /// The name that stands at a place, and the place after it. `BadDns` exactly where none stands there, as for `read_name`.
    #[inline(always)]
    pub fn read(&mut self, alloc: Global, place: usize) -> Result<(Name, usize), NameStop>
        ensures stays { self.new ≡ self.old }
        ensures found { IfOk result (λ x. NameAt self.old place x.0 x.1) }
        ensures none { result ≡ Err NameStop.BadDns
            → (labels : List (List ℕ)) (after : ℕ)
            → NameAt self.old place labels after
            → ⊥ }
        ensures exact { ReturnsRead (λ x. (x.0, x.1)) result
            (name_at self.old place) }
    {
        match &mut self.memo {
            Some(memo) => read_on(alloc, self.message, memo, place),
            None => name_of(alloc, self.message, place),
        }
    }
}
