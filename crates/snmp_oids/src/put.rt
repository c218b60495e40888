// Octets written into others.
ghost use Rattle.std.specs.Prelude.{◌≡◌, ◌+◌, ◌≤◌, length};
ghost use Rattle.snmp_oids.specs.Inside.Written.{with_octets};

/// Writes octets at a place, and changes nothing else. The result is the place behind them.
pub(crate) fn put(octets: &[u8], target: &mut [u8], place: usize) -> usize
    requires { place + length octets.now ≤ length target.old }
    ensures written { target.new ≡ with_octets place octets.now target.old }
    ensures end { result ≡ place + length octets.now }
{
    let end = place + octets.len();
    target[place..end].copy_from_slice(octets);
    end
}
