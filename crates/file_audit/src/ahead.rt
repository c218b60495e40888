// The given report, as far as it is read.
ghost use Rattle.std.specs.Prelude.{◌≡◌, ◌≤◌, [], drop, length, IfErr, OnOk, OnErr};
ghost use Rattle.gate_desk.specs.declared.slot.Slot.TheVariants.{ReportGiven};
ghost use Rattle.gate_desk.specs.Outside.{CanRead, TakesFewer};
ghost use Rattle.file_audit.specs.Inside.Given.{Fills};
ghost use Rattle.file_audit.specs.Inside.Stops.{FailsAt, LeavesFaults};

use gate_desk::{Desk, Failed, Slot, read_full};
use run_setup::Status;
use std::marker::Model;

/// The most octets that are read ahead: more than a line has, as text or as JSON.
pub const AHEAD: usize = 256;

/// The octets of the given report that were read and not skipped yet.
#[derive(Drop)]
pub struct Ahead {
    room: [u8; AHEAD],
    count: usize,
}

impl Model for Ahead {
    ghost use Rattle.std.specs.Prelude.{ℕ, List, ◌≤◌, take};

    ghost Value = { List ℕ };

    ghost view = { λ d. take d.count d.room };

    ghost invariant = { λ d. d.count ≤ 256 };
}

impl Ahead {
    /// Nothing was read.
    pub fn new() -> Ahead
        ensures { result ≡ [] }
    {
        Ahead {
            room: [0; AHEAD],
            count: 0,
        }
    }

    /// Reads as many octets as there is room for, or all that are left. The error is that a read failed.
    pub fn fill<D: Desk>(&mut self, desk: &mut D) -> Result<(), Status>
        requires { CanRead (D.outside desk.old) ReportGiven }
        ensures ok { OnOk result
            (Fills self.old self.new (D.outside desk.old) (D.outside desk.new)) }
        ensures err { OnErr result
            (TakesFewer ReportGiven 256 (D.outside desk.old) (D.outside desk.new)) }
        ensures cause { IfErr result (λ stop. FailsAt stop ReportGiven
            (D.outside desk.old) (D.outside desk.new)) }
        ensures leaves { LeavesFaults result (D.outside desk.old)
            (D.outside desk.new) }
    {
        match read_full(desk, Slot::ReportGiven, &mut self.room[self.count..]) {
            Ok(n) => {
                self.count += n;
                Ok(())
            }
            Err(Failed) => Err(Status::ReadFault(Slot::ReportGiven)),
        }
    }

    /// The octets that were read and not skipped yet.
    pub fn octets(&self) -> &[u8]
        ensures { result.now ≡ self.now }
    {
        &self.room[..self.count]
    }

    /// Drops so many from the front.
    pub fn skip(&mut self, n: usize)
        requires { n ≤ length self.old }
        ensures { self.new ≡ drop n self.old }
    {
        let count = self.count - n;
        let mut room = [0; AHEAD];
        room[..count].copy_from_slice(&self.room[n..self.count]);
        self.room = room;
        self.count = count;
    }
}
