// The renaming of a message.
ghost use Rattle.std.specs.Prelude.{◌≡◌, ◌*◌, ◌≤◌, ◌++◌, length, drop, IsSome};
ghost use Rattle.snmp_gateway.specs.Message.{kind_of};
ghost use Rattle.gate_base.specs.Prelude.{AreRules};
ghost use Rattle.snmp_oids.specs.Elements.{oid_renamed};

use crate::elements::put_elements;
use crate::put::put;
use oid_rules::SortedRules;
use snmp_gateway::{Lookup, SnmpKind, check};

/// Writes a message with the images of the addresses in it at the front of a target, and answers its length. The rest of the
/// target stays as it was, and no memory is taken.
///
/// `check` accepts the octets, and the target has at least four times as many. Each rule is as `address_in` wants it. The
/// addresses are the values of IpAddress, the agent address of a trap, and what the rules name in an OBJECT IDENTIFIER. That is
/// the enterprise field, a binding's name or its value (RFC 2962, 4.2). The four arcs of such an address become those of its
/// image, in the fewest octets. An element whose content changes its length has the shortest form of it, and so on outward. Each
/// other keeps its octets of length. A message of version 3 is kept.
pub fn rename_into<L: Lookup>(
    octets: &[u8],
    rules: &SortedRules,
    lookup: &L,
    target: &mut [u8],
) -> usize
    requires message { IsSome (kind_of octets.now) }
    requires rules { AreRules rules.now }
    requires room { 4 * length octets.now ≤ length target.old }
    ensures size { result
        ≡ length (oid_renamed (L.image_of lookup.now) rules.now octets.now) }
    ensures written { target.new
        ≡ oid_renamed (L.image_of lookup.now) rules.now octets.now
        ++ drop result target.old }
{
    if check(octets) == Some(SnmpKind::V3) {
        put(octets, target, 0)
    } else {
        put_elements(octets, rules, lookup, target, 0)
    }
}
