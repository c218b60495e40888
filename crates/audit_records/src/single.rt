// The datagram that is wanted, if one is.
ghost use Rattle.std.specs.Prelude.{◌≡◌, ◌≤◌, ◌&&◌, [], ◌∷◌, nat_lt, length, take, slice_index_or, IfOk};
ghost use Rattle.audit_records.specs.Inside.Records.{holds};

use crate::came::{Came, is_both};
use gate_base::{LONGEST_DATAGRAM, OutOfMemory};
use std::alloc::Global;
use std::marker::Model;

/// Room for one datagram: a list of one or of none.
#[derive(Drop)]
pub struct Single {
    octets: Vec<u8>,
    // the length of the datagram
    size: Option<usize>,
}

impl Model for Single {
    ghost use Rattle.std.specs.Prelude.{ℕ, List};
    ghost use Rattle.audit_records.specs.Inside.Rooms.{datagrams_in, IsRoom};

    ghost Value = { List (List ℕ) };

    ghost view = { λ s. datagrams_in s.size s.octets.items };

    ghost invariant = { λ s. IsRoom s.size s.octets.items };
}

impl Single {
    /// No datagram, with the room for any.
    pub fn new(alloc: Global) -> Result<Single, OutOfMemory>
        ensures { IfOk result (λ s. s ≡ []) }
    {
        Ok(Single {
            octets: vec![in alloc; 0; LONGEST_DATAGRAM]?,
            size: None,
        })
    }

    /// The number of datagrams.
    pub fn len(&self) -> u64
        ensures { result ≡ length self.now }
    {
        match self.size {
            None => 0,
            Some(_) => 1,
        }
    }

    /// No datagram is left.
    pub fn clear(&mut self)
        ensures { self.new ≡ [] }
    {
        self.size = None;
    }

    /// This datagram is the one.
    pub fn put(&mut self, datagram: &[u8])
        requires { length datagram.now ≤ LONGEST_DATAGRAM }
        ensures { self.new ≡ datagram.now ∷ [] }
    {
        put_front(&mut self.octets, datagram);
        self.size = Some(datagram.len());
    }

    /// Whether a record holds the datagram with this place.
    pub fn is_held(&self, came: &Came<'_>, place: u64) -> bool
        ensures { result
            ≡ (nat_lt place (length self.now)
            && holds came.now (slice_index_or self.now place [])) }
    {
        match self.size {
            None => false,
            Some(size) => is_both(place == 0, came.holds(&self.octets[..size])),
        }
    }
}

// Writes octets at the front of a room.
fn put_front(room: &mut [u8], octets: &[u8])
    requires { length octets.now ≤ length room.old }
    ensures front { take (length octets.now) room.new ≡ octets.now }
    ensures room { length room.new ≡ length room.old }
{
    room[..octets.len()].copy_from_slice(octets);
}
