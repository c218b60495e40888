// A record that came, beside what it may hold.
ghost use Rattle.std.specs.Prelude.{◌≡◌, ◌≤◌, ◌<◌, ◌+◌, ◌-◌, ◌^◌, ◌++◌, ◌&&◌, length};
ghost use Rattle.std.specs.Str.{bytes_eq};
ghost use Rattle.ether_frames.specs.Ether.{framed_on};
ghost use Rattle.gate_settings.specs.Prelude.{side_settings};
ghost use Rattle.lawful_files.specs.Progress.{head_length};
ghost use Rattle.audit_records.specs.Inside.Records.{holds};

use ether_frames::put_head;
use gate_base::{Link, Side};
use gate_settings::{Settings, SideSettings};
use pcap_files::Packet;
use std::marker::Model;

/// A record, and the realm and the moment to which it is to belong.
#[derive(Drop)]
pub struct Came<'a> {
    settings: &'a Settings,
    side: Side,
    moment: u64,
    packet: Packet<'a>,
}

impl<'a> Model for Came<'a> {
    ghost use Rattle.audit_records.specs.Inside.Records.{Came};

    ghost Value = { Came };

    ghost view = { λ c. record { settings = c.settings.now; side = c.side; moment = c.moment; packet = record { stamp = c.packet.stamp; whole = c.packet.whole; octets = c.packet.octets.now } } };
}

impl<'a> Came<'a> {
    /// This record, with the realm and the moment to which it is to belong.
    pub fn of(settings: &'a Settings, side: Side, moment: u64, packet: &Packet<'a>) -> Came<'a>
        ensures { result
            ≡ record {
              settings = settings.now;
              side = side;
              moment = moment;
              packet = record {
                stamp = packet.now.stamp;
                whole = packet.now.whole;
                octets = packet.now.octets.now;
              };
            } }
    {
        Came {
            settings,
            side,
            moment,
            packet: *packet,
        }
    }

    /// Whether the record is the whole one of the datagram.
    pub fn holds(&self, datagram: &[u8]) -> bool
        ensures { result ≡ holds self.now datagram.now }
    {
        self.packet.whole
            && self.packet.stamp == self.moment
            && carries(self.settings.side(self.side), self.packet.octets, datagram)
    }

    /// How many octets the record has behind the head of its frame and headers of so many octets.
    pub fn size_behind(&self, headers: usize) -> u64
        requires { headers ≤ 80 }
        ensures is { result
            ≡ length self.now.packet.octets
            - (head_length (side_settings self.now.settings self.now.side).link
            + headers) }
        ensures small { result < 2 ^ 63 }
    {
        let before = head_len(self.settings.side(self.side)) + headers;
        self.packet.octets.len().saturating_sub(before) as u64
    }
}

fn head_len(side: &SideSettings) -> usize
    ensures is { result ≡ head_length side.now.link }
    ensures few { result ≤ 14 }
{
    match side.link {
        Link::Raw => 0,
        Link::Ethernet => 14,
    }
}

/// Whether the octets are the datagram, in a frame where the link wants one.
fn carries(side: &SideSettings, octets: &[u8], datagram: &[u8]) -> bool
    ensures { result
        ≡ bytes_eq octets.now (framed_on side.now.link side.now.next_mac
        side.now.gateway_mac datagram.now) }
{
    match side.link {
        Link::Raw => octets == datagram,
        Link::Ethernet => {
            let mut head = [0; 14];
            put_head(&side.next_mac, &side.gateway_mac, &mut head);
            has_front(octets, &head, datagram)
        }
    }
}

/// Whether the octets are the head and then the datagram.
fn has_front(octets: &[u8], head: &[u8], datagram: &[u8]) -> bool
    ensures { result ≡ bytes_eq octets.now (head.now ++ datagram.now) }
{
    if octets.len() < head.len() {
        return false;
    }
    let (front, rest) = octets.split_at(head.len());
    is_both(is_same(front, head), is_same(rest, datagram))
}

/// Whether the octets are the same.
fn is_same(octets: &[u8], others: &[u8]) -> bool
    ensures { result ≡ bytes_eq octets.now others.now }
{
    octets == others
}

/// Whether both hold.
pub fn is_both(one: bool, other: bool) -> bool
    ensures { result ≡ (one && other) }
{
    one && other
}
