// The events of two captures, one by one.
ghost use Rattle.std.specs.Prelude.{◌≡◌, Some, None, Err, IfSome, IsSome};
ghost use Rattle.gate_base.specs.Prelude.{event_of};
ghost use Rattle.gate_desk.specs.Outside.{CanRead};
ghost use Rattle.pcap_merge.specs.Merge.{Begins, Advances};
ghost use Rattle.pcap_merge.specs.Stops.{LeavesCounts};

use crate::MergeStop;
use crate::order::{Last, earlier};
use crate::sides::read_sides;
use crate::stop::stop_of;
use gate_base::{Event, Moment, Side};
use gate_desk::{Desk, Slot};
use pcap_files::CaptureReader;
use std::alloc::Global;
use std::marker::Model;

/// The merge of the captures of both sides, which are read as far as the next event needs.
pub struct Merge {
    left: CaptureReader,
    right: CaptureReader,
    clock: u64,
    last: Last,
    stopped: Option<MergeStop>,
}

// By a call of its own, since a drop that is written out wherever it happens is slow to prove.
impl Drop for Merge {
    fn drop(self) {
        let Self {
            left,
            right,
            clock,
            last,
            stopped,
        } = self;
    }
}

impl Model for Merge {
    ghost use Rattle.pcap_merge.specs.Merge.{Merging};
    ghost use Rattle.pcap_merge.specs.Inside.Merge.{IsSound, merging};

    ghost Value = { Merging };

    ghost view = { λ m. merging m.left m.right m.clock m.last m.stopped };

    ghost invariant = { λ m. IsSound m.left m.right m.clock m.last m.stopped };
}

impl Merge {
    /// Reads the heads of both captures, the left one first, and takes room for one record of each side. No other call takes memory.
    pub fn begin<D: Desk>(alloc: Global, desk: &mut D) -> Result<Merge, MergeStop>
        requires left { CanRead (D.outside desk.old) Slot.LeftIn }
        requires right { CanRead (D.outside desk.old) Slot.RightIn }
        ensures begins { Begins result (D.outside desk.old) (D.outside desk.new) }
        ensures leaves { LeavesCounts result (D.outside desk.old)
            (D.outside desk.new) }
    {
        let left = match CaptureReader::begin(alloc, desk, Slot::LeftIn) {
            Ok(left) => left,
            Err(stop) => return Err(stop_of(Side::Left, stop)),
        };
        let right = match CaptureReader::begin(alloc, desk, Slot::RightIn) {
            Ok(right) => right,
            Err(stop) => return Err(stop_of(Side::Right, stop)),
        };
        Ok(Merge {
            left,
            right,
            clock: 0,
            last: Last::Nothing,
            stopped: None,
        })
    }

    /// Comes to the next event: true where there is one, false where both captures are at their ends. After a stop each call answers the same stop, and reads nothing.
    #[inline(always)]
    pub fn advance<D: Desk>(&mut self, desk: &mut D) -> Result<bool, MergeStop>
        requires left { CanRead (D.outside desk.old) Slot.LeftIn }
        requires right { CanRead (D.outside desk.old) Slot.RightIn }
        ensures first { self.old.stop ≡ None
            → Advances result self.old self.new (D.outside desk.old)
            (D.outside desk.new) }
        ensures leaves { LeavesCounts result (D.outside desk.old)
            (D.outside desk.new) }
        ensures again { IfSome self.old.stop (λ stop. (result ≡ Err stop)
            × (self.new ≡ self.old) × (D.outside desk.new ≡ D.outside desk.old)) }
    {
        if let Some(stop) = self.stopped {
            return Err(stop);
        }
        if let Err(stop) = read_sides(desk, self.last, &mut self.left, &mut self.right) {
            self.stopped = Some(stop);
            return Err(stop);
        }
        match earlier(self.left.stamp(), self.right.stamp()) {
            Some((side, stamp)) => {
                let moment = self.clock.max(stamp);
                self.clock = moment;
                self.last = Last::Event(side);
                Ok(true)
            }
            None => {
                self.last = Last::End;
                Ok(false)
            }
        }
    }

    /// The event to which the last advance came, which answered true.
    pub fn event(&self) -> Event<'_>
        requires { IsSome self.now.event }
        ensures { self.now.event ≡ Some (event_of result) }
    {
        let (side, reader) = match self.last {
            Last::Event(Side::Left) => (Side::Left, &self.left),
            _ => (Side::Right, &self.right),
        };
        let packet = reader.packet();
        Event {
            side,
            moment: Moment(self.clock),
            link: reader.link(),
            whole: packet.whole,
            octets: packet.octets,
        }
    }
}
