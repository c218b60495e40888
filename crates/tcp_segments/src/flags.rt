// The flags of a segment and the octet in which they stand (RFC 9293, 3.1).
ghost use Rattle.std.specs.Prelude.{◌≡◌, ◌≤◌};
ghost use Rattle.tcp_segments.specs.Flags.{flags_of, flags_octet};

/// The flags of a segment (RFC 9293, 3.1). URG is not here, since it is cleared.
#[derive(Clone, Copy, Debug, PartialEq, Eq)]
pub struct Flags {
    pub fin: bool,
    pub syn: bool,
    pub reset: bool,
    pub push: bool,
    pub ack: bool,
    /// The two bits of congestion notification (RFC 3168), which are copied: from 0 to 3.
    pub ecn: u8,
}

/// The flags in an octet.
pub fn flags_of(octet: u8) -> Flags
    ensures { result ≡ flags_of octet }
{
    Flags {
        fin: octet % 2 == 1,
        syn: octet / 2 % 2 == 1,
        reset: octet / 4 % 2 == 1,
        push: octet / 8 % 2 == 1,
        ack: octet / 16 % 2 == 1,
        ecn: octet / 64,
    }
}

/// The octet of flags.
pub fn flags_octet(flags: Flags) -> u8
    requires { flags.ecn ≤ 3 }
    ensures { result ≡ flags_octet flags }
{
    u8::from(flags.fin)
        + 2 * u8::from(flags.syn)
        + 4 * u8::from(flags.reset)
        + 8 * u8::from(flags.push)
        + 16 * u8::from(flags.ack)
        + 64 * flags.ecn
}
