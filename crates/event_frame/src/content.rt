// A frame by itself: the datagram in it, and the reasons to refuse it that ask for nothing that is known.
ghost use Rattle.std.specs.Prelude.{◌≡◌, ◌≤◌, None, Ok, length, IfOk};
ghost use Rattle.gate_base.specs.Prelude.{event_of};
ghost use Rattle.verdicts.specs.Prelude.{first_that_holds};
ghost use Rattle.ether_frames.specs.Ether.{octets_in};
ghost use Rattle.ipv4_frames.specs.Ipv4.{read_datagram};
ghost use Rattle.gate_model.specs.Frame as frame;
ghost use Rattle.event_frame.specs.Inside.Judged.{ip_refusal, transport_refusal, judged, Carries};

use gate_base::{Event, ICMP, TCP, UDP, is_unicast};
use ipv4_frames::{IpFault, IpView, TransportFault};
use tcp_segments::TcpView;
use udp_icmp::{IcmpView, UdpView};
use verdicts::Refusal;

/// What a datagram carries.
#[derive(Drop)]
pub enum Content<'a> {
    Udp(UdpView<'a>),
    Icmp(IcmpView<'a>),
    Tcp(TcpView<'a>),
}

fn ip_refusal(fault: IpFault) -> Refusal
    ensures { result ≡ ip_refusal fault }
{
    match fault {
        IpFault::NotIpv4 => Refusal::NotIpv4,
        IpFault::BadHeader => Refusal::BadHeader,
        IpFault::BadHeaderSum => Refusal::BadHeaderSum,
        IpFault::Fragment => Refusal::Fragment,
        IpFault::IpOptions => Refusal::IpOptions,
    }
}

fn transport_refusal(fault: TransportFault) -> Refusal
    ensures { result ≡ transport_refusal fault }
{
    match fault {
        TransportFault::BadTransport => Refusal::BadTransport,
        TransportFault::BadSum => Refusal::BadSum,
    }
}

/// The datagram of a frame, or why its header is refused.
#[inline(always)]
pub fn datagram_in<'a>(event: &Event<'a>, octets: &'a [u8]) -> Result<IpView<'a>, Refusal>
    requires { octets.now
        ≡ octets_in (event_of event.now).link (event_of event.now).octets }
    ensures judged { result
        ≡ judged (first_that_holds (frame.header_tests (event_of event.now)))
        (frame.datagram_in (event_of event.now)) }
    ensures read { IfOk result (λ d. read_datagram octets.now ≡ Ok d) }
{
    if !event.whole {
        return Err(Refusal::Snapped);
    }
    IpView::of(octets).map_err(ip_refusal)
}

fn is_known_icmp(kind: u8) -> bool
    ensures { result ≡ frame.is_known_icmp kind }
{
    matches!(kind, 0 | 8 | 3 | 4 | 11 | 12)
}

fn is_other_protocol(datagram: &IpView<'_>) -> bool
    ensures { result ≡ frame.is_other_protocol datagram.now }
{
    if datagram.protocol() == ICMP {
        match datagram.payload() {
            [kind, ..] => !is_known_icmp(*kind),
            _ => false,
        }
    } else {
        !(datagram.protocol() == TCP || datagram.protocol() == UDP)
    }
}

#[inline(always)]
fn has_other_address(datagram: &IpView<'_>) -> bool
    ensures { result ≡ frame.has_other_address datagram.now }
{
    !is_unicast(datagram.source()) || !is_unicast(datagram.destination())
}

/// Why a datagram with a good header is refused, whatever it carries.
#[inline(always)]
pub fn datagram_refusal(datagram: &IpView<'_>) -> Option<Refusal>
    ensures refusal { result ≡ first_that_holds (frame.datagram_tests datagram.now) }
    ensures alive { result ≡ None → 2 ≤ datagram.now.lifetime }
{
    if datagram.lifetime() < 2 {
        Some(Refusal::TtlSpent)
    } else if has_other_address(datagram) {
        Some(Refusal::NotUnicast)
    } else if is_other_protocol(datagram) {
        Some(Refusal::Protocol)
    } else {
        None
    }
}

/// What a datagram carries, or why it is refused for it.
#[inline(always)]
pub fn content_of<'a>(datagram: &IpView<'a>) -> Result<Content<'a>, Refusal>
    ensures { Carries datagram.now result }
{
    let payload = datagram.payload();
    let (source, destination) = (datagram.source(), datagram.destination());
    if datagram.protocol() == UDP {
        UdpView::of(payload, source, destination)
            .map(Content::Udp)
            .map_err(transport_refusal)
    } else if datagram.protocol() == TCP {
        TcpView::of(payload, source, destination)
            .map(Content::Tcp)
            .map_err(transport_refusal)
    } else {
        IcmpView::of(payload)
            .map(Content::Icmp)
            .map_err(transport_refusal)
    }
}
