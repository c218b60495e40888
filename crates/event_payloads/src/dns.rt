// DNS messages over UDP (RFC 2694).
ghost use Rattle.std.specs.Prelude.{◌≡◌, ◌≢◌, ◌+◌, ◌≤◌, [], ◌∷◌, List, drop, length, option_map, unwrap_or, true, false, All, IfOk, IfSome, OnErr, is_some, is_none, nat_lt};
ghost use Rattle.std.specs.List.{list_any};
ghost use Rattle.gate_base.specs.Prelude.{IsMoment, other};
ghost use Rattle.gate_base.specs.declared.protocol.TheConstants.{LONGEST_DATAGRAM, UDP};
ghost use Rattle.gate_model.specs.declared.TheConstants.{MOST_CARRIED};
ghost use Rattle.binding_table.specs.Prelude.{cross, in_pool, free, is_settled, Use, AreUsesOf, needed, after_uses, images_after};
ghost use Rattle.dns_gateway.specs.Addresses.{message_addresses};
ghost use Rattle.dns_messages.specs.Reading.{message_at};
ghost use Rattle.dns_messages.specs.Suits.{MessageSuits};
ghost use Rattle.twice_translate.specs.Renamed.{CanGoOn, datagram_of, rebuilt};
ghost use Rattle.gate_model.specs.Frame as kinds;
ghost use Rattle.gate_model.specs.Prelude.{carried, message_in, named_in, is_unbound, has_unbound, reply_by, uses_until, World};
ghost use Rattle.event_payloads.specs.Ways.{IsWay, image_by};
ghost use Rattle.event_payloads.specs.Inside.Named.{named_uses};
ghost use Rattle.event_payloads.specs.Plain.{PlainSession, plain_rules};
ghost use Rattle.event_payloads.specs.Taken.{IsTaken, IsUdpOf, IsWayOf};

use crate::addresses::{Way, use_address};
use crate::plain::take_plain;
use crate::udp::UdpDatagram;
use binding_table::{Crossing, SeenAddresses, Table};
use dns_gateway::{addresses_of, rename, reply};
use dns_messages::{Message, read_message};
use dns_names::NameStop;
use event_outbox::{Datagrams, put_rebuilt, put_renamed};
use gate_base::{Addr, Moment, OutOfMemory, Side};
use gate_model::{NAMED_TIMEOUT, UDP_TIMEOUT};
use std::alloc::Global;
use verdicts::Refusal;

/// The message that the octets are, or None where they are none.
fn message_in(alloc: Global, octets: &[u8]) -> Result<Option<Message>, OutOfMemory>
    ensures is { IfOk result (λ message. message ≡ message_at octets.now) }
    ensures suits { IfOk result (λ message. IfSome message MessageSuits) }
{
    match read_message(alloc, octets) {
        Ok(message) => Ok(Some(message)),
        Err(NameStop::BadDns) => Ok(None),
        Err(NameStop::OutOfMemory) => Err(OutOfMemory),
    }
}

/// The addresses in a message that are renamed.
fn named_in(alloc: Global, message: &Message) -> Result<Vec<Addr>, OutOfMemory>
    ensures { IfOk result (λ named. named.items ≡ named_in (Some message.now)) }
{
    addresses_of(alloc, message)
}

fn is_unbound(crossing: Crossing) -> bool
    ensures { result ≡ is_unbound crossing }
{
    matches!(crossing, Crossing::Unbound)
}

/// One of the addresses is of the realm's pool and stands for no host.
fn has_unbound(table: &Table, side: Side, addresses: &[Addr]) -> bool
    ensures { result ≡ has_unbound table.now side addresses.now }
{
    addresses
        .iter()
        .any(|address| is_unbound(table.cross(side, *address)))
}

/// The addresses of the header, and then those of the message.
fn all_addresses(alloc: Global, way: &Way, named: &[Addr]) -> Result<Vec<Addr>, OutOfMemory>
    ensures { IfOk result (λ addresses. addresses.items
        ≡ way.now.source ∷ way.now.destination ∷ named.now) }
{
    let mut addresses = Vec::with_capacity(alloc, named.len() + 2)?;
    addresses.push(way.source)?;
    addresses.push(way.destination)?;
    addresses.extend_from_slice(named)?;
    Ok(addresses)
}

fn has_image(images: &[Option<Addr>]) -> bool
    ensures { result ≡ list_any is_some images.now }
{
    images.iter().any(|image| image.is_some())
}

/// The octets that go on for a message of a payload, by the images of its addresses behind the two of the header, or None where it stays as
/// it is.
fn reply_by(
    alloc: Global,
    message: &mut Message,
    images: &[Option<Addr>],
    payload: &[u8],
) -> Result<Option<Vec<u8>>, OutOfMemory>
    requires images { length images.now ≡ 2 + length (message_addresses message.old) }
    requires suits { MessageSuits message.old }
    requires few { length payload.now ≤ MOST_CARRIED }
    ensures is { IfOk result (λ reply. unwrap_or (option_map (λ v. v.items) reply)
        payload.now
        ≡ reply_by (drop 2 images.now) payload.now (Some message.old)) }
    ensures fits { IfOk result
        (λ reply. IfSome reply (λ v. 28 + length v.items ≤ LONGEST_DATAGRAM)) }
{
    let images = &images[2..];
    if !has_image(images) {
        return Ok(None);
    }
    rename(alloc, message, images)?;
    Ok(Some(reply(alloc, message, payload.len())?))
}

/// What addresses will be called once all of them are used, or None where the other realm's pool has too few addresses for them.
fn planned_images(
    alloc: Global,
    table: &Table,
    side: Side,
    addresses: &[Addr],
    seen_addresses: &mut SeenAddresses,
) -> Result<Option<Vec<Option<Addr>>>, OutOfMemory>
    requires bound { All (λ address. cross table.now side address ≢ Crossing.Unbound)
        addresses.now }
    ensures none { IfOk result (λ images. is_none images
        ≡ nat_lt (free table.now (other side))
        (needed table.now side addresses.now)) }
    ensures images { (uses : List Use)
        → AreUsesOf side addresses.now uses
        → IfOk result
        (λ images. IfSome images (λ v. v.items ≡ images_after table.now uses)) }
    ensures count { IfOk result
        (λ images. IfSome images (λ v. length v.items ≡ length addresses.now)) }
{
    let mut images = vec![in alloc; None; addresses.len()]?;
    if table.plan(side, addresses, &mut images, seen_addresses) {
        Ok(Some(images))
    } else {
        Ok(None)
    }
}

/// Uses addresses in their order.
pub fn use_all(table: &mut Table, side: Side, addresses: &[Addr], until: Moment)
    ensures { table.new
        ≡ after_uses table.old (uses_until side until.0 addresses.now) }
{
    for address in addresses {
        use_address(table, side, *address, until);
    }
}

/// Puts the datagram with these addresses and the reply in the place of its payload.
fn put_reply(
    outbox: &mut Datagrams,
    octets: &[u8],
    source: Addr,
    destination: Addr,
    reply: &Option<Vec<u8>>,
)
    requires empty { outbox.old ≡ [] }
    requires few { length octets.now ≤ LONGEST_DATAGRAM }
    requires can { CanGoOn octets.now }
    requires protocol { (datagram_of octets.now).protocol ≡ UDP }
    requires fits { IfSome reply.now (λ v. 28 + length v.items ≤ LONGEST_DATAGRAM) }
    ensures { outbox.new
        ≡ rebuilt (datagram_of octets.now) source.0 destination.0 (unwrap_or
        (option_map (λ v. v.items) reply.now)
        (carried (datagram_of octets.now))) ∷ [] }
{
    match reply {
        Some(reply) => put_rebuilt(outbox, octets, source, destination, reply),
        None => put_renamed(outbox, octets, source, destination),
    }
}

/// The datagram passes: its addresses and those in its message are used, and it goes on with the reply. It takes no memory.
fn pass_names(
    table: &mut Table,
    way: &Way,
    named: &[Addr],
    octets: &[u8],
    reply: &Option<Vec<u8>>,
    outbox: &mut Datagrams,
)
    requires way { IsWay table.old way.now }
    requires settled { is_settled way.now.of_destination ≡ true }
    requires moment { IsMoment way.now.moment.0 }
    requires empty { outbox.old ≡ [] }
    requires few { length octets.now ≤ LONGEST_DATAGRAM }
    requires can { CanGoOn octets.now }
    requires protocol { (datagram_of octets.now).protocol ≡ UDP }
    requires fits { IfSome reply.now (λ v. 28 + length v.items ≤ LONGEST_DATAGRAM) }
    ensures table { table.new
        ≡ after_uses table.old (named_uses way.now.side way.now.moment.0
        way.now.source way.now.destination named.now) }
    ensures out { outbox.new
        ≡ rebuilt (datagram_of octets.now)
        (image_by way.now.of_source way.now.source).0
        (image_by way.now.of_destination way.now.destination).0 (unwrap_or
        (option_map (λ v. v.items) reply.now)
        (carried (datagram_of octets.now))) ∷ [] }
{
    way.use_both(table, UDP_TIMEOUT);
    use_all(table, way.side, named, Moment(way.moment.0 + NAMED_TIMEOUT));
    let (source, destination) = (way.source_image(), way.destination_image());
    put_reply(outbox, octets, source, destination, reply);
}

/// Takes a datagram whose message names nothing: only its header is renamed. It takes no memory.
fn take_unnamed(
    table: &mut Table,
    way: &Way,
    octets: &[u8],
    outbox: &mut Datagrams,
) -> Option<Refusal>
    requires way { IsWay table.old way.now }
    requires settled { is_settled way.now.of_destination ≡ true }
    requires moment { IsMoment way.now.moment.0 }
    requires empty { outbox.old ≡ [] }
    requires few { length octets.now ≤ LONGEST_DATAGRAM }
    requires can { CanGoOn octets.now }
    requires protocol { (datagram_of octets.now).protocol ≡ UDP }
    ensures taken { (live : World PlainSession)
        → live.table ≡ table.old
        → IsWayOf live way.now.side (datagram_of octets.now) way.now
        → is_none (message_in (datagram_of octets.now)) ≡ false
        → named_in (message_in (datagram_of octets.now)) ≡ []
        → IsTaken plain_rules live way.now.side (datagram_of octets.now) (kinds.Whole kinds.Dns)
        result table.new outbox.new }
{
    take_plain(table, way, UDP_TIMEOUT, octets, outbox)
}

/// A UDP datagram, and its way.
#[derive(Clone, Copy)]
struct Received<'a> {
    way: &'a Way,
    datagram: &'a UdpDatagram<'a>,
}

/// Takes a datagram with this message, which may have images of its addresses then.
fn take_message(
    alloc: Global,
    message: &mut Message,
    table: &mut Table,
    seen_addresses: &mut SeenAddresses,
    received: Received<'_>,
    outbox: &mut Datagrams,
) -> Result<Option<Refusal>, OutOfMemory>
    requires way { IsWay table.old received.way.now }
    requires outside { in_pool table.old received.way.now.side received.way.now.source ≡ false }
    requires settled { is_settled received.way.now.of_destination ≡ true }
    requires moment { IsMoment received.way.now.moment.0 }
    requires empty { outbox.old ≡ [] }
    requires whole { IsUdpOf received.datagram.now.octets.now received.datagram.now.payload.now }
    requires message { message_at received.datagram.now.payload.now ≡ Some message.old }
    requires suits { MessageSuits message.old }
    ensures taken { (live : World PlainSession)
        → live.table ≡ table.old
        → IsWayOf live received.entry.way.now.side
        (datagram_of received.entry.datagram.now.octets.now) received.entry.way.now
        → IfOk result (λ r. IsTaken plain_rules live received.entry.way.now.side
        (datagram_of received.entry.datagram.now.octets.now) (kinds.Whole kinds.Dns) r table.new
        outbox.new) }
    ensures memory { OnErr result ((table.new ≡ table.old) × (outbox.new ≡ [])) }
{
    let way = received.way;
    let datagram = received.datagram;
    let named = named_in(alloc, message)?;
    if named.is_empty() {
        return Ok(take_unnamed(table, way, datagram.octets, outbox));
    }
    if has_unbound(table, way.side, &named) {
        return Ok(Some(Refusal::DnsUnbound));
    }
    let addresses = all_addresses(alloc, way, &named)?;
    let Some(images) = planned_images(alloc, table, way.side, &addresses, seen_addresses)? else {
        return Ok(Some(Refusal::PoolEmpty));
    };
    let reply = reply_by(alloc, message, &images, datagram.payload)?;
    pass_names(table, way, &named, datagram.octets, &reply, outbox);
    Ok(None)
}

/// Takes a datagram with a DNS message.
#[inline(never)]
pub fn take_dns(
    alloc: Global,
    table: &mut Table,
    seen_addresses: &mut SeenAddresses,
    way: &Way,
    datagram: &UdpDatagram<'_>,
    outbox: &mut Datagrams,
) -> Result<Option<Refusal>, OutOfMemory>
    requires way { IsWay table.old way.now }
    requires outside { in_pool table.old way.now.side way.now.source ≡ false }
    requires settled { is_settled way.now.of_destination ≡ true }
    requires moment { IsMoment way.now.moment.0 }
    requires empty { outbox.old ≡ [] }
    requires whole { IsUdpOf datagram.now.octets.now datagram.now.payload.now }
    ensures taken { (live : World PlainSession)
        → live.table ≡ table.old
        → IsWayOf live way.now.side (datagram_of datagram.now.octets.now) way.now
        → IfOk result (λ r. IsTaken plain_rules live way.now.side
        (datagram_of datagram.now.octets.now) (kinds.Whole kinds.Dns) r table.new
        outbox.new) }
    ensures memory { OnErr result ((table.new ≡ table.old) × (outbox.new ≡ [])) }
{
    match message_in(alloc, datagram.payload)? {
        None => Ok(Some(Refusal::BadDns)),
        Some(mut message) => {
            let received = Received { way, datagram };
            take_message(alloc, &mut message, table, seen_addresses, received, outbox)
        }
    }
}
