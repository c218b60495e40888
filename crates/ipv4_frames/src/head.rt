ghost use Rattle.std.specs.Prelude.{◌≡◌, ◌+◌, ◌^◌, ◌<◌, ◌≤◌, ◌++◌, length, drop, Ok, slice_index};
ghost use Rattle.ipv4_frames.specs.Ipv4.{IsPlainHead, head_with, spelled_head, read_datagram};

use gate_base::{Addr, put_u16, put_u32};
use inet_sum::sum;

/// Writes a header into the first 20 octets of a target: the model's 20 octets with this total length in octets,
/// lifetime, source and destination, and its right checksum.
pub fn put_head(
    target: &mut [u8],
    model: &[u8],
    total: u16,
    lifetime: u8,
    source: Addr,
    destination: Addr,
)
    requires room { 20 ≤ length target.old }
    requires head { length model.now ≡ 20 }
    ensures { target.new
        ≡ spelled_head model.now total lifetime source.0 destination.0
        ++ drop 20 target.old }
{
    let head = &mut target[..20];
    head.copy_from_slice(model);
    put_fields(head, total, lifetime, source, destination);
    let checksum = sum(head);
    put_u16(head, 10, checksum);
}

#[tactic(auto, unfolding(crate::specs::Ipv4::head_with))]
fn put_fields(head: &mut [u8], total: u16, lifetime: u8, source: Addr, destination: Addr)
    requires { length head.old ≡ 20 }
    ensures { head.new ≡ head_with head.old total lifetime source.0 destination.0 }
{
    put_u16(head, 2, total);
    head[8] = lifetime;
    put_u16(head, 10, 0);
    put_u32(head, 12, source.0);
    put_u32(head, 16, destination.0);
}

/// A header that `put_head` writes from a model without options and fragmentation, followed by the payload that its
/// total length counts, reads back as these fields.
pub fn reads_back(model: &[u8], payload: &[u8], lifetime: u8, source: u32, destination: u32)
    requires head { length model.now ≡ 20 }
    requires plain { IsPlainHead model.now }
    requires fits { 20 + length payload.now < 2 ^ 16 }
    ensures written { length (spelled_head model.now (20 + length payload.now)
        lifetime source destination) ≡ 20 }
    ensures read { let head = spelled_head model.now (20 + length payload.now)
        lifetime source destination in
        let protocol = slice_index model.now 9 in
        read_datagram (head ++ payload.now)
        ≡ Ok (record {
          source = source;
          destination = destination;
          protocol = protocol;
          lifetime = lifetime;
          header = head;
          payload = payload.now;
        }) }
{}
