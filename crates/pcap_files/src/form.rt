// The forms of a capture.
ghost use Rattle.std.specs.Prelude.{◌≡◌, ◌+◌, ◌≤◌, length};

use byteorder::{BigEndian, ByteOrder, LittleEndian};
use gate_base::Link;

/// The order in which the octets of a number stand.
#[derive(Clone, Copy, Debug, PartialEq, Eq)]
pub enum Order {
    /// The lowest octet first.
    Little,
    /// The highest octet first.
    Big,
}

/// What the fraction of a stamp counts.
#[derive(Clone, Copy, Debug, PartialEq, Eq)]
pub enum Precision {
    Microseconds,
    Nanoseconds,
}

/// What the head of a capture says of its records.
#[derive(Clone, Copy, Debug, PartialEq, Eq)]
pub struct Form {
    /// The order of the octets of each number.
    pub order: Order,
    /// What the fractions of its stamps count.
    pub precision: Precision,
    /// What its frames are.
    pub link: Link,
}

impl Order {
    ghost use Rattle.pcap_files.specs.Capture.{number_at};

    /// The 32-bit number at a place.
    pub fn number(self, octets: &[u8], place: usize) -> u32
        requires { place + 4 ≤ length octets.now }
        ensures { result ≡ number_at self place octets.now }
    {
        match self {
            Order::Little => LittleEndian::read_u32(&octets[place..]),
            Order::Big => BigEndian::read_u32(&octets[place..]),
        }
    }
}

impl Precision {
    ghost use Rattle.pcap_files.specs.Capture.{unit};

    /// The nanoseconds of one unit of a fraction.
    pub fn unit(self) -> u64
        ensures { result ≡ unit self }
    {
        match self {
            Precision::Microseconds => 1000,
            Precision::Nanoseconds => 1,
        }
    }
}
