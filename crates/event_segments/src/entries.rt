// The use of an address in a session's list (RFC 2694).
ghost use Rattle.std.specs.Prelude.{◌≡◌, ◌∷◌, []};
ghost use Rattle.binding_table.specs.Prelude.{after_uses};
ghost use Rattle.gate_model.specs.Prelude.{renamed_in, uses_until};

use binding_table::Table;
use dns_plans::Entry;
use event_payloads::use_address;
use gate_base::{Moment, Side};

/// Uses the address of an entry, unless it is kept.
pub fn use_entry(table: &mut Table, side: Side, entry: Entry, until: Moment)
    ensures { table.new
        ≡ after_uses table.old (uses_until side until.0 (renamed_in (entry ∷ []))) }
{
    if entry.1.is_some() {
        use_address(table, side, entry.0, until);
    }
}
