// What is wanted of an event, and how far its records have come.
ghost use Rattle.std.specs.Prelude.{◌≡◌, ◌≤◌, ◌<◌, ◌^◌, [], ◌∷◌, Some, None, length, IfOk};
ghost use Rattle.gate_base.specs.Prelude.{other};
ghost use Rattle.gate_base.specs.declared.side.Side.TheVariants.{Left};
ghost use Rattle.lawful_files.specs.Progress as progress;
ghost use Rattle.lawful_files.specs.Prelude.{begun, Exactly, Cut};
ghost use Rattle.audit_records.specs.Inside.Kept.{wanted_of, progress_of, carried_by};

use crate::came::Came;
use crate::cutting::{has_all, is_right_cut, size_of};
use crate::pieces::Pieces;
use crate::single::Single;
use gate_base::{LONGEST_DATAGRAM, Moment, OutOfMemory, Side};
use gate_settings::Settings;
use pcap_files::Packet;
use std::alloc::Global;
use std::marker::Model;

/// How many records came, how many octets of those that are cut they carried, and whether all were right.
#[derive(Clone, Copy)]
pub struct Progress {
    pub count: u64,
    pub carried: u64,
    pub right: bool,
}

const BEGUN: Progress = Progress {
    count: 0,
    carried: 0,
    right: true,
};

/// What is wanted of an event, by its side and moment, and how far its records have come.
#[derive(Drop)]
pub struct Expected {
    side: Side,
    moment: Moment,
    single: Single,
    pieces: Option<Pieces>,
    so_far: Progress,
    // where the datagram of a piece is put together
    room: Vec<u8>,
}

impl Model for Expected {
    ghost use Rattle.std.specs.Prelude.{◌≤◌, length};
    ghost use Rattle.gate_base.specs.declared.protocol.TheConstants.{LONGEST_DATAGRAM};
    ghost use Rattle.audit_records.specs.Kept.{Expecting};
    ghost use Rattle.audit_records.specs.Inside.Kept.{wanted_of, progress_of};

    ghost Value = { Expecting };

    ghost view = { λ e. record { side = e.side; moment = e.moment.0; wanted = wanted_of e.pieces e.single; so_far = progress_of e.so_far } };

    ghost invariant = { λ e. LONGEST_DATAGRAM ≤ length e.room.items };
}

impl Expected {
    /// Nothing, of a moment 0 on the left, with all the memory that it ever needs but for what sessions send. The error is that there is
    /// too little.
    pub fn new(alloc: Global) -> Result<Expected, OutOfMemory>
        ensures { IfOk result (λ e. e
            ≡ record {
              side = Left;
              moment = 0;
              wanted = Exactly [];
              so_far = begun;
            }) }
    {
        Ok(Expected {
            side: Side::Left,
            moment: Moment(0),
            single: Single::new(alloc)?,
            pieces: None,
            so_far: BEGUN,
            room: vec![in alloc; 0; LONGEST_DATAGRAM]?,
        })
    }

    /// No datagrams are wanted of an event.
    pub fn want_nothing(&mut self, side: Side, moment: Moment)
        ensures { self.new
            ≡ record {
              side = side;
              moment = moment.0;
              wanted = Exactly [];
              so_far = begun;
            } }
    {
        self.side = side;
        self.moment = moment;
        self.single.clear();
        self.pieces = None;
        self.so_far = BEGUN;
    }

    /// This datagram is wanted of an event.
    pub fn want_datagram(&mut self, side: Side, moment: Moment, datagram: &[u8])
        requires { length datagram.now ≤ LONGEST_DATAGRAM }
        ensures { self.new
            ≡ record {
              side = side;
              moment = moment.0;
              wanted = Exactly (datagram.now ∷ []);
              so_far = begun;
            } }
    {
        self.side = side;
        self.moment = moment;
        self.single.put(datagram);
        self.pieces = None;
        self.so_far = BEGUN;
    }

    /// What a session sends is wanted of an event, however its octets are cut.
    pub fn want_pieces(&mut self, side: Side, moment: Moment, pieces: Pieces)
        ensures { self.new
            ≡ record {
              side = side;
              moment = moment.0;
              wanted = Cut pieces.datagram pieces.source pieces.destination
                  pieces.sent;
              so_far = begun;
            } }
    {
        self.side = side;
        self.moment = moment;
        self.pieces = Some(pieces);
        self.so_far = BEGUN;
    }

    /// Takes one record of the other realm's capture, and answers whether all so far are the front of a lawful list. It takes no memory.
    pub fn frame(&mut self, settings: &Settings, packet: &Packet<'_>) -> bool
        requires count { self.old.so_far.count < 2 ^ 32 }
        requires carried { self.old.so_far.carried < 2 ^ 62 }
        ensures next { self.new
            ≡ record self.old {
              so_far = progress.behind settings.now (other self.old.side)
                  self.old.moment self.old.wanted self.old.so_far (record {
                    stamp = packet.now.stamp;
                    whole = packet.now.whole;
                    octets = packet.now.octets.now;
                  });
            } }
        ensures answer { result ≡ self.new.so_far.right }
    {
        let came = Came::of(settings, self.side.other(), self.moment.0, packet);
        self.so_far = behind(
            &came,
            &self.single,
            &self.pieces,
            self.so_far,
            &mut self.room,
        );
        self.so_far.right
    }

    /// Whether all that is wanted came.
    pub fn closed(&self) -> bool
        ensures { result ≡ progress.is_closed self.now.wanted self.now.so_far }
    {
        is_closed(&self.single, &self.pieces, self.so_far)
    }
}

/// What is kept behind one record more.
fn behind(
    came: &Came<'_>,
    single: &Single,
    pieces: &Option<Pieces>,
    so_far: Progress,
    room: &mut [u8],
) -> Progress
    requires count { so_far.count < 2 ^ 32 }
    requires carried { so_far.carried < 2 ^ 62 }
    requires room { LONGEST_DATAGRAM ≤ length room.old }
    ensures next { let r = came.now in
        progress_of result
        ≡ progress.behind r.settings r.side r.moment (wanted_of pieces.now single.now)
        (progress_of so_far) r.packet }
    ensures room { length room.new ≡ length room.old }
{
    let right = is_right(came, single, pieces, so_far, room);
    Progress {
        count: so_far.count + 1,
        carried: so_far.carried + carried_by(came, pieces),
        right: so_far.right && right,
    }
}

/// Whether a record is right behind those that came.
fn is_right(
    came: &Came<'_>,
    single: &Single,
    pieces: &Option<Pieces>,
    so_far: Progress,
    room: &mut [u8],
) -> bool
    requires carried { so_far.carried < 2 ^ 62 }
    requires room { LONGEST_DATAGRAM ≤ length room.old }
    ensures answer { let r = came.now in
        result
        ≡ progress.is_right r.settings r.side r.moment
        (wanted_of pieces.now single.now) (progress_of so_far) r.packet }
    ensures room { length room.new ≡ length room.old }
{
    match pieces {
        None => single.is_held(came, so_far.count),
        Some(pieces) => is_right_cut(came, pieces, so_far.count, so_far.carried, room),
    }
}

/// How many octets of those that are cut a record carries.
fn carried_by(came: &Came<'_>, pieces: &Option<Pieces>) -> u64
    ensures is { result ≡ carried_by came.now pieces.now }
    ensures small { result < 2 ^ 63 }
{
    match pieces {
        None => 0,
        Some(pieces) => size_of(came, pieces),
    }
}

/// Whether all that is wanted came.
fn is_closed(single: &Single, pieces: &Option<Pieces>, so_far: Progress) -> bool
    ensures { result
        ≡ progress.is_closed (wanted_of pieces.now single.now) (progress_of so_far) }
{
    so_far.right
        && match pieces {
            None => so_far.count == single.len(),
            Some(pieces) => has_all(pieces, so_far.count, so_far.carried),
        }
}
