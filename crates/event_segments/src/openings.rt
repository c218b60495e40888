// The connection of a segment, and whether it may begin one.
ghost use Rattle.std.specs.Prelude.{◌≡◌, ◌||◌, ◌&&◌, not};
ghost use Rattle.gate_model.specs.Frame as kinds;
ghost use Rattle.gate_model.specs.Stream as streams;
ghost use Rattle.event_payloads.specs.Prelude.{image_by};

use event_payloads::{Way, key_of};
use gate_base::{CONTROL_PORT, DNS_PORT};
use tcp_segments::{TcpView, flags_of};
use tcp_tracker::ConnKey;

/// Whether it is a SYN without ACK.
fn is_opening(flags: u8) -> bool
    ensures { result ≡ streams.is_opening flags }
{
    let flags = flags_of(flags);
    flags.syn && !flags.ack
}

/// Whether connections to the port are tracked: of FTP and of DNS.
fn is_tracked_port(port: u16) -> bool
    ensures { result ≡ kinds.is_tracked_port port }
{
    port == CONTROL_PORT || port == DNS_PORT
}

/// Whether one of its ports is such a port, and it is no SYN without ACK.
pub fn is_late(tcp: &TcpView<'_>) -> bool
    ensures { result
        ≡ ((kinds.is_tracked_port tcp.now.source_port
        || kinds.is_tracked_port tcp.now.destination_port)
        && not (streams.is_opening tcp.now.flags)) }
{
    let ports = tcp.ports();
    (is_tracked_port(ports.0) || is_tracked_port(ports.1)) && !is_opening(tcp.flags())
}

/// Whether it is a SYN without ACK to such a port.
pub fn is_first(tcp: &TcpView<'_>) -> bool
    ensures { result
        ≡ (streams.is_opening tcp.now.flags
        && kinds.is_tracked_port tcp.now.destination_port) }
{
    is_opening(tcp.flags()) && is_tracked_port(tcp.ports().1)
}

/// The name of the connection of a segment with these ports.
pub fn key_in(way: &Way, ports: (u16, u16)) -> ConnKey
    ensures { result
        ≡ streams.key_of way.now.side way.now.source ports.0
        (image_by way.now.of_destination way.now.destination) ports.1 }
{
    key_of(
        way.side,
        way.source,
        ports.0,
        way.destination_image(),
        ports.1,
    )
}
