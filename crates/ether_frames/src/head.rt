ghost use Rattle.std.specs.Prelude.{◌≡◌, ◌≤◌, ◌++◌, Some, length, drop};
ghost use Rattle.ether_frames.specs.Ether.{ipv4_head, read_frame};

use gate_base::put_u16;

/// The type of frames that carry IPv4 (RFC 894).
pub const IPV4: u16 = 0x0800;

/// Writes the head of a frame that carries IPv4 into the first 14 octets of a target, and leaves the rest.
pub fn put_head(destination: &[u8; 6], source: &[u8; 6], target: &mut [u8])
    requires { 14 ≤ length target.old }
    ensures { target.new
        ≡ ipv4_head destination.now source.now ++ drop 14 target.old }
{
    let head = &mut target[..14];
    head[..6].copy_from_slice(destination);
    head[6..12].copy_from_slice(source);
    put_u16(head, 12, IPV4);
}

/// A frame with the head that `put_head` writes is read with the type of IPv4 and with what follows that head.
pub fn reads_back(destination: &[u8; 6], source: &[u8; 6], payload: &[u8])
    ensures { read_frame (ipv4_head destination.now source.now ++ payload.now)
        ≡ Some (record { kind = IPV4; payload = payload.now }) }
{}
