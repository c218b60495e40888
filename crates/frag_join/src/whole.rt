// Datagrams that are joined.
ghost use Rattle.std.specs.Prelude.{◌≡◌, true};
ghost use Rattle.gate_base.specs.Prelude.{event_of};
ghost use Rattle.frag_join.specs.Coverage as known;
ghost use Rattle.frag_join.specs.Joining.{event_from};

use crate::buffer::Buffer;
use gate_base::{Event, Link, Moment, Side};
use std::marker::Model;

/// A datagram that is complete, with the side and the moment of the frame that completed it. It is seen as an event.
#[derive(Drop)]
pub struct Whole {
    side: Side,
    moment: Moment,
    buffer: Buffer,
}

impl Model for Whole {
    ghost use Rattle.std.specs.Prelude.{◌≡◌, true};
    ghost use Rattle.gate_base.specs.Prelude.{Event};

    ghost Value = { Event };

    ghost use Rattle.frag_join.specs.Joining.{event_from};
    ghost use Rattle.frag_join.specs.Coverage.{spelled, is_complete};

    ghost view = { λ w. event_from w.side w.moment.0 (spelled w.buffer) };

    ghost invariant = { λ w. is_complete w.buffer ≡ true };
}

impl Whole {
    /// The datagram of a buffer that holds all of one.
    pub fn of(side: Side, moment: Moment, buffer: Buffer) -> Whole
        requires { known.is_complete buffer ≡ true }
        ensures { result ≡ event_from side moment.0 (known.datagram_of buffer) }
    {
        let mut buffer = buffer;
        buffer.seal();
        Whole {
            side,
            moment,
            buffer,
        }
    }

    /// The datagram as an event, whole and without an Ethernet head.
    pub fn event(&self) -> Event<'_>
        ensures { event_of result ≡ self.now }
    {
        Event {
            side: self.side,
            moment: self.moment,
            link: Link::Raw,
            whole: true,
            octets: self.buffer.octets(),
        }
    }

    /// The buffer, for another datagram.
    pub fn into_buffer(self) -> Buffer {
        self.buffer
    }
}
