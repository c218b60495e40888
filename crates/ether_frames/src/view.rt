ghost use Rattle.std.specs.Prelude.{◌≡◌, ◌≤◌, length};
ghost use Rattle.ether_frames.specs.Ether.{Ether, fields_of, read_frame};

use gate_base::get_u16;
use std::marker::Model;

/// An Ethernet frame of at least 14 octets.
#[derive(Drop)]
pub struct EtherView<'a> {
    octets: &'a [u8],
}

impl<'a> Model for EtherView<'a> {
    ghost Value = { Ether };

    ghost view = { λ v. fields_of v.octets.now };

    ghost invariant = { (λ v. 14 ≤ length v.octets.now) };
}

impl<'a> EtherView<'a> {
    /// The frame that these octets are, and None exactly where they are fewer than 14.
    #[tactic(auto, unfolding(crate::specs::Ether::read_frame))]
    pub fn of(octets: &'a [u8]) -> Option<EtherView<'a>>
        ensures { result ≡ read_frame octets.now }
    {
        if octets.len() < 14 {
            None
        } else {
            Some(EtherView { octets })
        }
    }

    /// What the frame carries: 0x0800 is IPv4 (RFC 894).
    pub fn kind(&self) -> u16
        ensures { result ≡ self.now.kind }
    {
        get_u16(self.octets, 12)
    }

    /// The octets behind the head, any padding included.
    pub fn payload(&self) -> &'a [u8]
        ensures { result.now ≡ self.now.payload }
    {
        &self.octets[14..]
    }
}
