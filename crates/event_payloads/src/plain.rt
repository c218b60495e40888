// Datagrams of which only the header is renamed: other UDP, echoes, and segments that no session takes.
ghost use Rattle.std.specs.Prelude.{◌≡◌, ◌≤◌, [], ◌∷◌, None, length, true};
ghost use Rattle.gate_base.specs.Prelude.{IsMoment, IsTimeout};
ghost use Rattle.verdicts.specs.Prelude.{first_that_holds, unless_refused};
ghost use Rattle.binding_table.specs.Prelude.{after_uses, is_settled};
ghost use Rattle.twice_translate.specs.Renamed.{CanGoOn, datagram_of, renamed};
ghost use Rattle.verdicts.specs.declared.refusal.Refusal.TheVariants.{PoolEmpty};
ghost use Rattle.gate_base.specs.declared.protocol.TheConstants.{LONGEST_DATAGRAM};
ghost use Rattle.gate_model.specs.Prelude.{uses_until};
ghost use Rattle.event_payloads.specs.Ways.{IsWay, image_by, is_empty, header_uses};

use crate::addresses::{Way, lacks_alias};
use binding_table::Table;
use event_outbox::{Datagrams, put_renamed};
use verdicts::Refusal;

/// The datagram passes: its addresses are used, and it goes on.
pub fn pass_plain(table: &mut Table, way: &Way, timeout: u64, octets: &[u8], outbox: &mut Datagrams)
    requires way { IsWay table.old way.now }
    requires settled { is_settled way.now.of_destination ≡ true }
    requires moment { IsMoment way.now.moment.0 }
    requires timeout { IsTimeout timeout }
    requires empty { outbox.old ≡ [] }
    requires few { length octets.now ≤ LONGEST_DATAGRAM }
    requires can { CanGoOn octets.now }
    ensures table { table.new ≡ after_uses table.old (header_uses way.now timeout) }
    ensures out { outbox.new
        ≡ renamed (datagram_of octets.now)
        (image_by way.now.of_source way.now.source).0
        (image_by way.now.of_destination way.now.destination).0 ∷ [] }
{
    way.use_both(table, timeout);
    put_renamed(outbox, octets, way.source_image(), way.destination_image());
}

/// Takes a datagram of which only the header is renamed.
pub fn take_plain(
    table: &mut Table,
    way: &Way,
    timeout: u64,
    octets: &[u8],
    outbox: &mut Datagrams,
) -> Option<Refusal>
    requires way { IsWay table.old way.now }
    requires settled { is_settled way.now.of_destination ≡ true }
    requires moment { IsMoment way.now.moment.0 }
    requires timeout { IsTimeout timeout }
    requires empty { outbox.old ≡ [] }
    requires few { length octets.now ≤ LONGEST_DATAGRAM }
    requires can { CanGoOn octets.now }
    ensures refusal { result
        ≡ first_that_holds ((is_empty way.now.of_source, PoolEmpty) ∷ []) }
    ensures table { table.new
        ≡ unless_refused result (after_uses table.old (header_uses way.now timeout))
        table.old }
    ensures out { outbox.new
        ≡ unless_refused result
        (renamed (datagram_of octets.now)
        (image_by way.now.of_source way.now.source).0
        (image_by way.now.of_destination way.now.destination).0 ∷ []) [] }
{
    if lacks_alias(way) {
        return Some(Refusal::PoolEmpty);
    }
    pass_plain(table, way, timeout, octets, outbox);
    None
}
