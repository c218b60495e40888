// Addresses that are entered into a list.
ghost use Rattle.std.specs.Prelude.{◌≡◌, ◌≤◌, ◌++◌, true, not, is_none, nat_lt, length, IfOk, IfSome};
ghost use Rattle.std.specs.List.{list_any};
ghost use Rattle.gate_model.specs.Prelude.{is_unbound, is_new_unbound};
ghost use Rattle.dns_plans.specs.Steps.{enter_one, entered_all};

use crate::sender::Sender;
use crate::session::Session;
use binding_table::{Crossing, Table};
use dialogue::MOST_ENTRIES;
use dns_stream::{Entry, RenameList};
use gate_base::{Addr, OutOfMemory, Side};
use std::alloc::Global;

/// Enters an address into `new`, unless the sender's list or `new` has it. False exactly where it would be the 257th entry.
fn enter_one<S: Session>(sender: &Sender<'_, S>, new: &mut RenameList, one: Entry) -> bool
    requires few { length
        (S.rules.listed sender.now.host sender.now.session.now ++ new.old)
        ≤ MOST_ENTRIES }
    ensures entered { result ≡ true
        → S.rules.listed sender.now.host sender.now.session.now ++ new.new
        ≡ enter_one
        (S.rules.listed sender.now.host sender.now.session.now ++ new.old) one }
    ensures room { result
        ≡ not (nat_lt MOST_ENTRIES (length (enter_one
        (S.rules.listed sender.now.host sender.now.session.now ++ new.old) one))) }
{
    if sender.knows(one.0) || new.image_of(one.0).is_some() {
        return true;
    }
    if sender.listed() + new.len() == MOST_ENTRIES {
        return false;
    }
    new.learn(one.0, one.1);
    true
}

/// What is new to the sender's list once these are entered, one after the other. None exactly where the list would have more than `MOST_ENTRIES`
/// entries with it.
pub fn new_entries<S: Session>(
    alloc: Global,
    sender: &Sender<'_, S>,
    named: &[Entry],
) -> Result<Option<RenameList>, OutOfMemory>
    ensures few { IfOk result (λ new. is_none new
        ≡ nat_lt MOST_ENTRIES (length (entered_all
        (S.rules.listed sender.now.host sender.now.session.now) named.now))) }
    ensures list { IfOk result (λ new. IfSome new (λ list.
        S.rules.listed sender.now.host sender.now.session.now ++ list
        ≡ entered_all (S.rules.listed sender.now.host sender.now.session.now)
        named.now)) }
{
    let mut new = RenameList::new(alloc)?;
    // The proof needs that the list has at most `MOST_ENTRIES`.
    let _few = sender.listed();
    for one in named {
        if !enter_one(sender, &mut new, *one) {
            return Ok(None);
        }
    }
    Ok(Some(new))
}

fn is_unbound(crossing: Crossing) -> bool
    ensures { result ≡ is_unbound crossing }
{
    matches!(crossing, Crossing::Unbound)
}

fn is_new_unbound<S: Session>(
    table: &Table,
    side: Side,
    sender: &Sender<'_, S>,
    address: Addr,
) -> bool
    ensures { result
        ≡ is_new_unbound table.now side
        (S.rules.listed sender.now.host sender.now.session.now) address }
{
    !sender.knows(address) && is_unbound(table.cross(side, address))
}

/// One of the addresses isn't listed, is of the realm's pool and stands for no host.
pub fn has_new_unbound<S: Session>(
    table: &Table,
    side: Side,
    sender: &Sender<'_, S>,
    named: &[Addr],
) -> bool
    ensures { result
        ≡ list_any (is_new_unbound table.now side
        (S.rules.listed sender.now.host sender.now.session.now)) named.now }
{
    named
        .iter()
        .any(|address| is_new_unbound(table, side, sender, *address))
}
