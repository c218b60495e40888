// The datagram that a frame carries (RFC 894).
ghost use Rattle.std.specs.Prelude.{◌≡◌};
ghost use Rattle.gate_base.specs.Prelude.{event_of};
ghost use Rattle.ether_frames.specs.Ether.{read_frame, carried, octets_in};

use crate::head::IPV4;
use crate::view::EtherView;
use gate_base::{Event, Link};

/// The octets in which the datagram of an event's frame stands. An Ethernet frame that carries anything but IPv4, as one
/// with a VLAN tag, or has fewer than 14 octets, has none.
pub fn octets_in<'a>(event: &Event<'a>) -> &'a [u8]
    ensures { result.now
        ≡ octets_in (event_of event.now).link (event_of event.now).octets }
{
    match event.link {
        Link::Raw => event.octets,
        Link::Ethernet => carried(event.octets),
    }
}

// The payload of an Ethernet frame that carries IPv4, and else nothing.
fn carried(octets: &[u8]) -> &[u8]
    ensures { result.now ≡ carried (read_frame octets.now) }
{
    match EtherView::of(octets) {
        Some(frame) => {
            if frame.kind() == IPV4 {
                frame.payload()
            } else {
                &[]
            }
        }
        None => &[],
    }
}
