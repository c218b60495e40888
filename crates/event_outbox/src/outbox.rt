// Datagrams that are put where there are none.
ghost use Rattle.std.specs.Prelude.{◌≡◌, ◌+◌, ◌≤◌, ◌<◌, if◌then◌else◌, not, nat_lt, [], ◌∷◌, length, take, slice_index, slice_index_or, IsTrue, IsSome, IfOk, vec_capacity};
ghost use Rattle.resegment.specs.declared.datagrams.TheConstants.{MOST_DATAGRAMS};
ghost use Rattle.resegment.specs.declared.scratch.TheConstants.{SCRATCH_OCTETS};
ghost use Rattle.icmp_errors.specs.Inner.{is_inner, inner_with};
ghost use Rattle.snmp_gateway.specs.Message.{message, places_of};
ghost use Rattle.snmp_gateway.specs.Renaming.{renamed as renamed_message};
ghost use Rattle.gate_base.specs.Prelude.{AreRules};
ghost use Rattle.gate_base.specs.declared.protocol.TheConstants.{LONGEST_DATAGRAM, UDP};
ghost use Rattle.snmp_oids.specs.Elements.{oid_renamed};
ghost use Rattle.twice_translate.specs.Renamed.{CanGoOn, CanTranslate, datagram_of, renamed, rebuilt, with_payload};
ghost use Rattle.gate_model.specs.Prelude.{inside, with_inside, carried};
ghost use Rattle.event_outbox.specs.Inside.One.{IsOne};

use gate_base::Addr;
use gate_model::MOST_CARRIED;
use icmp_errors::put_inner;
use oid_rules::SortedRules;
use resegment::{Datagrams, Scratch};
use snmp_gateway::{Lookup, rename_in_place};
use snmp_oids::rename_into;
use twice_translate::{rebuild, translate, translate_accepted};

/// Puts the first datagram: this one, with these addresses.
pub fn put_renamed(outbox: &mut Datagrams, octets: &[u8], source: Addr, destination: Addr)
    requires empty { outbox.old ≡ [] }
    requires few { length octets.now ≤ LONGEST_DATAGRAM }
    requires can { CanGoOn octets.now }
    ensures { outbox.new
        ≡ renamed (datagram_of octets.now) source.0 destination.0 ∷ [] }
{
    copy_to(&mut outbox.octets, octets);
    translate_accepted(&mut outbox.octets, source, destination);
    end(&mut outbox.ends, &outbox.octets);
}

/// The same of an ICMP error, the datagram inside with these addresses and number.
pub fn put_error(
    outbox: &mut Datagrams,
    octets: &[u8],
    source: Addr,
    destination: Addr,
    inner_source: Addr,
    inner_destination: Addr,
    sequence: Option<u32>,
)
    requires empty { outbox.old ≡ [] }
    requires few { length octets.now ≤ LONGEST_DATAGRAM }
    requires can { CanGoOn octets.now }
    requires inside { IsTrue (is_inner (inside (datagram_of octets.now))) }
    ensures { outbox.new
        ≡ renamed
        (with_inside (datagram_of octets.now) (inner_with
        (inside (datagram_of octets.now)) inner_source.0
        inner_destination.0 sequence)) source.0 destination.0 ∷ [] }
{
    copy_to(&mut outbox.octets, octets);
    rename_inside(
        &mut outbox.octets,
        inner_source,
        inner_destination,
        sequence,
    );
    translate(&mut outbox.octets, source, destination);
    end(&mut outbox.ends, &outbox.octets);
}

/// The same of a datagram with an SNMP message, the addresses in it renamed.
pub fn put_snmp<L: Lookup>(
    outbox: &mut Datagrams,
    octets: &[u8],
    source: Addr,
    destination: Addr,
    lookup: &L,
)
    requires empty { outbox.old ≡ [] }
    requires few { length octets.now ≤ LONGEST_DATAGRAM }
    requires can { CanGoOn octets.now }
    requires protocol { (datagram_of octets.now).protocol ≡ UDP }
    requires message { IsSome (message (carried (datagram_of octets.now))) }
    ensures { outbox.new
        ≡ renamed
        (with_payload (datagram_of octets.now) (renamed_message
        (L.image_of lookup.now)
        (places_of (carried (datagram_of octets.now)))
        (carried (datagram_of octets.now)))) source.0 destination.0
        ∷ [] }
{
    copy_to(&mut outbox.octets, octets);
    rename_carried(&mut outbox.octets, lookup);
    translate(&mut outbox.octets, source, destination);
    end(&mut outbox.ends, &outbox.octets);
}

/// The same with the addresses in object identifiers renamed too, as rules say. The answer is whether a datagram can carry the
/// message that goes on: where it can't, nothing is put.
pub fn put_snmp_by_rules<L: Lookup>(
    outbox: &mut Datagrams,
    octets: &[u8],
    source: Addr,
    destination: Addr,
    rules: &SortedRules,
    lookup: &L,
    scratch: &mut Scratch,
) -> bool
    requires empty { outbox.old ≡ [] }
    requires few { length octets.now ≤ LONGEST_DATAGRAM }
    requires can { CanGoOn octets.now }
    requires protocol { (datagram_of octets.now).protocol ≡ UDP }
    requires message { IsSome (message (carried (datagram_of octets.now))) }
    requires rules { AreRules rules.now }
    ensures fits { result
        ≡ not (nat_lt MOST_CARRIED (length (oid_renamed (L.image_of lookup.now) rules.now
        (carried (datagram_of octets.now))))) }
    ensures out { outbox.new
        ≡ (if result then rebuilt (datagram_of octets.now) source.0 destination.0
        (oid_renamed (L.image_of lookup.now) rules.now
        (carried (datagram_of octets.now))) ∷ [] else []) }
{
    let size = write_renamed(carried_in(octets), rules, lookup, &mut scratch.octets);
    let fits = put_if_carried(outbox, octets, source, destination, &scratch.octets[..size]);
    scratch.octets.clear();
    fits
}

/// The same of a UDP datagram, with another payload.
pub fn put_rebuilt(
    outbox: &mut Datagrams,
    octets: &[u8],
    source: Addr,
    destination: Addr,
    payload: &[u8],
)
    requires empty { outbox.old ≡ [] }
    requires can { CanGoOn octets.now }
    requires protocol { (datagram_of octets.now).protocol ≡ UDP }
    requires fits { 28 + length payload.now ≤ LONGEST_DATAGRAM }
    ensures { outbox.new
        ≡ rebuilt (datagram_of octets.now) source.0 destination.0 payload.now
        ∷ [] }
{
    let total = 28 + payload.len();
    let _fits = outbox.octets.resize(total, 0);
    rebuild(&mut outbox.octets, octets, source, destination, payload);
    end(&mut outbox.ends, &outbox.octets);
}

// Puts the UDP datagram with this payload if it can carry so many octets, and answers that.
fn put_if_carried(
    outbox: &mut Datagrams,
    octets: &[u8],
    source: Addr,
    destination: Addr,
    payload: &[u8],
) -> bool
    requires empty { outbox.old ≡ [] }
    requires can { CanGoOn octets.now }
    requires protocol { (datagram_of octets.now).protocol ≡ UDP }
    ensures fits { result ≡ not (nat_lt MOST_CARRIED (length payload.now)) }
    ensures out { outbox.new
        ≡ (if result then rebuilt (datagram_of octets.now) source.0 destination.0
        payload.now ∷ [] else []) }
{
    if payload.len() > MOST_CARRIED {
        return false;
    }
    put_rebuilt(outbox, octets, source, destination, payload);
    true
}

// Ends the first datagram, which these octets are.
fn end(ends: &mut Vec<u32>, octets: &[u8])
    requires none { ends.old.items ≡ [] }
    requires few { length octets.now ≤ LONGEST_DATAGRAM }
    requires places { MOST_DATAGRAMS ≤ vec_capacity ends.old }
    ensures one { IsOne octets.now ends.new.items }
    ensures places { MOST_DATAGRAMS ≤ vec_capacity ends.new }
{
    ends.push_reserved(octets.len() as u32);
}

fn copy_to(target: &mut Vec<u8>, octets: &[u8])
    requires empty { target.old.items ≡ [] }
    requires room { length octets.now ≤ vec_capacity target.old }
    ensures octets { target.new.items ≡ octets.now }
    ensures room { vec_capacity target.old ≤ vec_capacity target.new }
{
    let _fits = target.extend_from_slice(octets);
}

// Gives the datagram inside an ICMP error these addresses and this number.
fn rename_inside(datagram: &mut [u8], source: Addr, destination: Addr, sequence: Option<u32>)
    requires can { CanGoOn datagram.old }
    requires inside { IsTrue (is_inner (inside (datagram_of datagram.old))) }
    ensures can { CanTranslate datagram.new }
    ensures payload { datagram_of datagram.new
        ≡ with_inside (datagram_of datagram.old) (inner_with
        (inside (datagram_of datagram.old)) source.0 destination.0 sequence) }
{
    put_inner(&mut datagram[28..], source, destination, sequence);
}

// Renames the addresses in the SNMP message that a UDP datagram carries.
fn rename_carried<L: Lookup>(datagram: &mut [u8], lookup: &L)
    requires can { CanGoOn datagram.old }
    requires protocol { (datagram_of datagram.old).protocol ≡ UDP }
    requires message { IsSome (message (carried (datagram_of datagram.old))) }
    ensures can { CanTranslate datagram.new }
    ensures payload { datagram_of datagram.new
        ≡ with_payload (datagram_of datagram.old) (renamed_message
        (L.image_of lookup.now) (places_of (carried (datagram_of datagram.old)))
        (carried (datagram_of datagram.old))) }
{
    rename_in_place(&mut datagram[28..], lookup);
}

// What a UDP datagram carries.
fn carried_in(octets: &[u8]) -> &[u8]
    requires can { CanGoOn octets.now }
    requires protocol { (datagram_of octets.now).protocol ≡ UDP }
    ensures carried { result.now ≡ carried (datagram_of octets.now) }
    ensures length { 28 + length result.now ≡ length octets.now }
{
    &octets[28..]
}

// Writes an SNMP message, renamed by rules, into an empty room, and answers its length: at most four times as many octets, since an
// arc of one octet may become one of two, and lengths with it.
fn write_renamed<L: Lookup>(
    octets: &[u8],
    rules: &SortedRules,
    lookup: &L,
    room: &mut Vec<u8>,
) -> usize
    requires message { IsSome (message octets.now) }
    requires rules { AreRules rules.now }
    requires short { length octets.now ≤ MOST_CARRIED }
    requires empty { room.old.items ≡ [] }
    requires places { SCRATCH_OCTETS ≤ vec_capacity room.old }
    ensures size { result
        ≡ length (oid_renamed (L.image_of lookup.now) rules.now octets.now) }
    ensures within { result ≤ length room.new.items }
    ensures written { take result room.new.items
        ≡ oid_renamed (L.image_of lookup.now) rules.now octets.now }
    ensures places { vec_capacity room.old ≤ vec_capacity room.new }
{
    let _fits = room.resize(4 * octets.len(), 0);
    rename_into(octets, rules, lookup, room)
}
