// SNMP messages, and the places of the IP addresses in them.
ghost use Rattle.std.specs.Prelude.{◌≡◌, ◌^◌, ◌<◌, ◌↔◌, ◌++◌, if◌then◌else◌, is_ok, take, length, IfOk, OnOk, IsSome, IsNone, IsErrOf, vec_len};
ghost use Rattle.snmp_gateway.specs.Message.{kind_of, places_of, AreApart};

use crate::outline::outline_of;
use gate_base::OutOfMemory;

/// The version of a message.
#[derive(Clone, Copy, Debug, PartialEq, Eq)]
pub enum SnmpKind {
    /// Version 1 (RFC 1157).
    V1,
    /// Version 2c (RFC 1901), with the PDUs and values of version 2 (RFC 3416).
    V2,
    /// Version 3 (RFC 3412), whose rest isn't read.
    V3,
}

/// Whether octets are a message, and of which kind; None exactly where they are none (RFC 1157, 4; RFC 1901; RFC 3416, 3).
pub fn check(octets: &[u8]) -> Option<SnmpKind>
    ensures { result ≡ kind_of octets.now }
{
    let mut ahead = outline_of(octets)?;
    while ahead.next_place(octets).is_some() {}
    if ahead.is_at_end() {
        Some(ahead.kind)
    } else {
        None
    }
}

/// Why there are no places.
#[derive(Clone, Copy, Debug, PartialEq, Eq)]
pub enum SnmpStop {
    /// The octets are no message.
    BadSnmp,
    /// Memory ran out.
    OutOfMemory,
}

/// The kind of a message. The places of the addresses in it, each of four octets, go behind the places that stand there.
///
/// There are fewer than 2^32 octets, so that each place fits. The error is BadSnmp exactly where the octets are no message,
/// as `check` tells. After an error the places are as they were.
pub fn addresses(octets: &[u8], places: &mut Vec<u32>) -> Result<SnmpKind, SnmpStop>
    requires { length octets.now < 2 ^ 32 }
    ensures kind { IfOk result (λ kind. kind_of octets.now ≡ Some kind) }
    ensures bad { IsErrOf result SnmpStop.BadSnmp ↔ IsNone (kind_of octets.now) }
    ensures apart { AreApart 0 (places_of octets.now) (length octets.now) }
    ensures places { places.new.items
        ≡ (if is_ok result then places.old.items
        ++ places_of octets.now else places.old.items) }
{
    let Some(kind) = check(octets) else {
        return Err(SnmpStop::BadSnmp);
    };
    let before = places.len();
    match list(octets, places) {
        Ok(()) => Ok(kind),
        Err(_) => {
            places.truncate(before);
            Err(SnmpStop::OutOfMemory)
        }
    }
}

// Puts the places of a message's addresses behind those that are there; without memory, some of them.
fn list(octets: &[u8], places: &mut Vec<u32>) -> Result<(), OutOfMemory>
    requires message { IsSome (kind_of octets.now) }
    requires short { length octets.now < 2 ^ 32 }
    ensures all { OnOk result
        (places.new.items ≡ places.old.items ++ places_of octets.now) }
    ensures kept { take (vec_len places.old) places.new.items ≡ places.old.items }
{
    let Some(mut ahead) = outline_of(octets) else {
        return Ok(());
    };
    while let Some(place) = ahead.next_place(octets) {
        places.push(place as u32)?;
    }
    Ok(())
}
