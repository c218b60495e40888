// A desk over real files: the trusted edge of the program.
ghost use Rattle.std.specs.Prelude.{◌≡◌, ◌<◌, ◌≤◌, ◌++◌, ℕ, List, Option, [], None, length, take, drop, IfOk, IfErr, IfSome, IsSome, IsErr, IsErrOf, OnOk, OnErr};
ghost use Rattle.std.specs.Io.KnownBytes.{ReadConsumes};
ghost use Rattle.gate_desk.specs.Counts.{counts_after, raised};
ghost use Rattle.file_desk.specs.Gathering.{ahead_after, unread_after, accesses_after, HandsOut, TakesAhead, TakesNothing, TakesNothingElse, TakesPiece, Waits};
ghost use Rattle.file_desk.specs.Inside.Gathering.{Keeps, LosesNothing, waiting_in, got_in, access_of, accesses_in, ahead_in, unread_in, gathered_after, RefusedWaits, StaysWaiting};
ghost use Rattle.gate_desk.specs.Slots.{at, put, each};

use crate::gathered::Gathering;
use crate::place::{Place, open_place, write_out};
use gate_desk::{Access, Desk, Failed, PerSlot, Slot};
use std::alloc::Allocator;
use std::io::Read;
use std::marker::Model;
use std::rt::Runtime;

/// A desk over files, which tells no contents and no starts. A start for reading opens a file, and one for writing creates or
/// empties it. The name `-` on the report is standard output. What is written on the slot of errors goes to standard error.
///
/// A write that is answered was taken, which doesn't say that the system got it: octets are gathered for each slot. All that is
/// gathered is written out, first of the captures and then of the report. That is done before the system is asked for more octets
/// of an input, before a start, and before a line of errors. It is done where there is no room for a piece, and by `finish`,
/// which alone says that the system got all.
///
/// Once the system refuses a gathered octet, each start, read and write fails, that of a line of errors too. Then `finish` names
/// the slot, drops what is gathered and closes all slots.
#[derive(Drop)]
pub struct FileDesk<R: Runtime> {
    rt: R,
    places: PerSlot<Place<R::File, R::A>>,
    // the slot of which the system refused a gathered octet
    refused: Option<Slot>,
    faults: PerSlot<u64>,
    start_faults: PerSlot<u64>,
    seed: u64,
}

impl<R: Runtime> Model for FileDesk<R> {
    ghost use Rattle.file_desk.specs.Untold.{Files};
    ghost use Rattle.file_desk.specs.Inside.Gathering.{got_in, waiting_in, accesses_in, ahead_in, unread_in, RefusedWaits};

    ghost Value = { Files };

    ghost view = { λ d. record { accesses = accesses_in d.places; ahead = ahead_in d.places; unread = unread_in R.File.remaining d.places; got = got_in R.File.contents d.places; waiting = waiting_in d.places; refused = d.refused; faults = d.faults; start_faults = d.start_faults } };

    // Where the system refused octets of a slot, some wait there.
    ghost invariant = { λ d. RefusedWaits d.refused (waiting_in d.places) };
}

fn nowhere<F: Read + Drop, A: Allocator>() -> PerSlot<Place<F, A>>
    ensures waiting { waiting_in result ≡ each [] }
    ensures got { (contents : F → Option (List ℕ))
        → got_in contents result ≡ each None }
    ensures accesses { accesses_in result ≡ each None }
    ensures ahead { ahead_in result ≡ each [] }
    ensures unread { unread_in F.remaining result ≡ each None }
{
    PerSlot {
        settings: Place::Nowhere,
        left_in: Place::Nowhere,
        right_in: Place::Nowhere,
        left_given: Place::Nowhere,
        right_given: Place::Nowhere,
        report_given: Place::Nowhere,
        left_out: Place::Nowhere,
        right_out: Place::Nowhere,
        report: Place::Nowhere,
        errors: Place::Nowhere,
    }
}

// Writes out all that is gathered, the report last, so that no line comes before its frame. The error is the slot that failed.
fn write_out_all<R: Runtime>(rt: &R, places: &mut PerSlot<Place<R::File, R::A>>) -> Result<(), Slot>
    ensures keeps { Keeps R.File.remaining places.old places.new }
    ensures none { OnOk result (waiting_in places.new ≡ each []) }
    ensures files { OnOk result (HandsOut (got_in R.File.contents places.old)
        (waiting_in places.old) (got_in R.File.contents places.new)) }
    ensures stays { IfErr result
        (λ slot. StaysWaiting slot (waiting_in places.old) (waiting_in places.new)) }
{
    write_out(rt, Slot::Settings, &mut places.settings)?;
    write_out(rt, Slot::LeftIn, &mut places.left_in)?;
    write_out(rt, Slot::RightIn, &mut places.right_in)?;
    write_out(rt, Slot::LeftGiven, &mut places.left_given)?;
    write_out(rt, Slot::RightGiven, &mut places.right_given)?;
    write_out(rt, Slot::ReportGiven, &mut places.report_given)?;
    write_out(rt, Slot::LeftOut, &mut places.left_out)?;
    write_out(rt, Slot::RightOut, &mut places.right_out)?;
    write_out(rt, Slot::Report, &mut places.report)?;
    write_out(rt, Slot::Errors, &mut places.errors)
}

// Writes out all that is gathered, or keeps the slot of which the system refused an octet.
#[inline(never)]
fn hand_out<R: Runtime>(
    rt: &R,
    places: &mut PerSlot<Place<R::File, R::A>>,
    refused: &mut Option<Slot>,
) -> Result<(), Failed>
    ensures keeps { Keeps R.File.remaining places.old places.new }
    ensures all { OnOk result (waiting_in places.new ≡ each []) }
    ensures files { OnOk result (HandsOut (got_in R.File.contents places.old)
        (waiting_in places.old) (got_in R.File.contents places.new)) }
    ensures none { OnOk result (refused.new ≡ None) }
    ensures err { OnErr result (IsSome refused.new) }
    ensures kept { IsSome refused.old → refused.new ≡ refused.old }
    ensures stays { RefusedWaits refused.old (waiting_in places.old)
        → IfSome refused.new (λ slot. StaysWaiting slot (waiting_in places.old)
        (waiting_in places.new)) }
{
    if refused.is_some() {
        return Err(Failed);
    }
    match write_out_all(rt, places) {
        Ok(()) => Ok(()),
        Err(slot) => {
            *refused = Some(slot);
            Err(Failed)
        }
    }
}

// Opens a slot's file, once all that is gathered is written out.
#[inline(never)]
fn start_slot<R: Runtime>(
    rt: &R,
    places: &mut PerSlot<Place<R::File, R::A>>,
    refused: &mut Option<Slot>,
    slot: Slot,
    name: &str,
    access: Access,
) -> Result<(), Failed>
    ensures refused { IsSome refused.old → IsErr result }
    ensures accesses { accesses_in places.new
        ≡ accesses_after result slot access (accesses_in places.old) }
    ensures takes { OnOk result (TakesNothingElse slot
        (got_in R.File.contents places.old) (waiting_in places.old)
        (got_in R.File.contents places.new) (waiting_in places.new)) }
    ensures none { OnOk result (at (waiting_in places.new) slot ≡ []) }
    ensures ahead { ahead_in places.new
        ≡ ahead_after result slot (ahead_in places.old) }
    ensures unread { unread_in R.File.remaining places.new
        ≡ unread_after result slot (unread_in R.File.remaining places.old)
        (unread_in R.File.remaining places.new) }
    ensures loses { LosesNothing R.File.contents result refused.old refused.new
        places.old places.new }
{
    hand_out(rt, places, refused)?;
    match open_place(rt, places, slot, name, access) {
        Ok(place) => {
            *places.at_mut(slot) = place;
            Ok(())
        }
        Err(_) => Err(Failed),
    }
}

// Reads a slot. Before the system is asked for octets, all that is gathered is written out.
fn read_slot<R: Runtime>(
    rt: &R,
    places: &mut PerSlot<Place<R::File, R::A>>,
    refused: &mut Option<Slot>,
    slot: Slot,
    buffer: &mut [u8],
) -> Result<usize, Failed>
    ensures fits { IfOk result (λ n. n ≤ length buffer.new) }
    ensures refused { IsSome refused.old → IsErr result }
    ensures accesses { accesses_in places.new ≡ accesses_in places.old }
    ensures ahead { IfOk result (λ n. 0 < length (at (ahead_in places.old) slot)
        → TakesAhead n buffer.new (at (ahead_in places.old) slot)
        (at (ahead_in places.new) slot)) }
    ensures others { ahead_in places.new
        ≡ put (ahead_in places.old) slot (at (ahead_in places.new) slot) }
    ensures unread { ReadConsumes (at (unread_in R.File.remaining places.old) slot)
        (at (unread_in R.File.remaining places.new) slot) result buffer.new }
    ensures unread_others { unread_in R.File.remaining places.new
        ≡ put (unread_in R.File.remaining places.old) slot
        (at (unread_in R.File.remaining places.new) slot) }
    ensures takes { OnOk result (TakesNothing (got_in R.File.contents places.old)
        (waiting_in places.old) (got_in R.File.contents places.new)
        (waiting_in places.new)) }
    ensures hands_out { OnOk result (at (ahead_in places.old) slot ≡ []
        → waiting_in places.new ≡ each []) }
    ensures loses { LosesNothing R.File.contents result refused.old refused.new
        places.old places.new }
{
    if refused.is_some() {
        return Err(Failed);
    }
    match places.at_mut(slot).take_ahead(buffer) {
        Some(n) => Ok(n),
        None => {
            hand_out(rt, places, refused)?;
            places.at_mut(slot).read(buffer)
        }
    }
}

// Gathers two whole pieces for a slot, the one behind the other.
#[inline(always)]
fn write_slot<R: Runtime>(
    rt: &R,
    places: &mut PerSlot<Place<R::File, R::A>>,
    refused: &mut Option<Slot>,
    slot: Slot,
    first: &[u8],
    second: &[u8],
) -> Result<(), Failed>
    ensures keeps { Keeps R.File.remaining places.old places.new }
    ensures waits { OnOk result (Waits slot (first.now ++ second.now)
        (waiting_in places.old) (waiting_in places.new)) }
    ensures takes { OnOk result (TakesPiece slot (first.now ++ second.now)
        (got_in R.File.contents places.old) (waiting_in places.old)
        (got_in R.File.contents places.new) (waiting_in places.new)) }
    ensures refused { IsSome refused.old → IsErr result }
    ensures loses { LosesNothing R.File.contents result refused.old refused.new
        places.old places.new }
{
    if slot == Slot::Errors {
        return write_errors(rt, places, refused, first, second);
    }
    if refused.is_some() {
        return Err(Failed);
    }
    match places.at_mut(slot).gather(first, second) {
        Gathering::Gathered => Ok(()),
        Gathering::NoRoom => gather_alone(rt, places, refused, slot, first, second),
        Gathering::Refused => Err(Failed),
    }
}

// The same, once all that is gathered is written out.
#[inline(never)]
fn gather_alone<R: Runtime>(
    rt: &R,
    places: &mut PerSlot<Place<R::File, R::A>>,
    refused: &mut Option<Slot>,
    slot: Slot,
    first: &[u8],
    second: &[u8],
) -> Result<(), Failed>
    ensures keeps { Keeps R.File.remaining places.old places.new }
    ensures waits { OnOk result (Waits slot (first.now ++ second.now)
        (waiting_in places.old) (waiting_in places.new)) }
    ensures takes { OnOk result (TakesPiece slot (first.now ++ second.now)
        (got_in R.File.contents places.old) (waiting_in places.old)
        (got_in R.File.contents places.new) (waiting_in places.new)) }
    ensures loses { LosesNothing R.File.contents result refused.old refused.new
        places.old places.new }
{
    hand_out(rt, places, refused)?;
    match places.at_mut(slot).gather(first, second) {
        Gathering::Gathered => Ok(()),
        Gathering::NoRoom => Err(Failed),
        Gathering::Refused => Err(Failed),
    }
}

// Writes two pieces of a line of errors, once all that is gathered is written out.
#[inline(never)]
fn write_errors<R: Runtime>(
    rt: &R,
    places: &mut PerSlot<Place<R::File, R::A>>,
    refused: &mut Option<Slot>,
    first: &[u8],
    second: &[u8],
) -> Result<(), Failed>
    ensures keeps { Keeps R.File.remaining places.old places.new }
    ensures takes { OnOk result (TakesPiece Slot.Errors (first.now ++ second.now)
        (got_in R.File.contents places.old) (waiting_in places.old)
        (got_in R.File.contents places.new) (waiting_in places.new)) }
    ensures refused { IsSome refused.old → IsErr result }
    ensures loses { LosesNothing R.File.contents result refused.old refused.new
        places.old places.new }
{
    hand_out(rt, places, refused)?;
    print(rt, first)?;
    print(rt, second)?;
    Ok(())
}

// Writes a piece to standard error, where it is text.
fn print<R: Runtime>(rt: &R, piece: &[u8]) -> Result<(), Failed> {
    if piece.is_empty() {
        return Ok(());
    }
    let Ok(text) = str::from_utf8(piece) else {
        return Err(Failed);
    };
    match rt.eprint(text) {
        Ok(()) => Ok(()),
        Err(_) => Err(Failed),
    }
}

impl<R: Runtime> FileDesk<R> {
    ghost use Rattle.gate_desk.specs.Outside.{HasFailed};
    ghost use Rattle.file_desk.specs.Untold.{told_by, HandsOutAll, all_dropped};

    /// A desk none of whose slots is started. It keeps the runtime, through which it reaches files and the standard streams, and a
    /// number by which tables may spread their keys.
    pub fn new(rt: R, seed: u64) -> FileDesk<R>
        ensures { result
            ≡ record {
              accesses = each None;
              ahead = each [];
              unread = each None;
              got = each None;
              waiting = each [];
              refused = None;
              faults = each 0;
              start_faults = each 0;
            } }
    {
        FileDesk {
            rt,
            places: nowhere(),
            refused: None,
            faults: PerSlot::no_counts(),
            start_faults: PerSlot::no_counts(),
            seed,
        }
    }

    /// Writes out all that is gathered. The error is the slot of which the system refused octets that had been taken, now or
    /// before, and of which some still wait. That counts as a failed write of the slot. What is left of all slots is dropped, and
    /// all are closed.
    pub fn finish(&mut self) -> Result<(), Slot>
        ensures ok { OnOk result (HandsOutAll self.old self.new) }
        ensures none { OnOk result (self.old.refused ≡ None) }
        ensures err { IfErr result (λ slot. self.new ≡ all_dropped slot self.old) }
        ensures cause { IfErr result
            (λ slot. HasFailed slot (told_by self.old) (told_by self.new)) }
        ensures named { IfSome self.old.refused (λ slot. IsErrOf result slot) }
        ensures waited { IfErr result
            (λ slot. 0 < length (at self.old.waiting slot)) }
    {
        let _ = hand_out(&self.rt, &mut self.places, &mut self.refused);
        match self.refused {
            None => Ok(()),
            Some(slot) => {
                self.refused = None;
                self.places = nowhere();
                self.faults.raise(slot);
                Err(slot)
            }
        }
    }
}

impl<R: Runtime> Desk for FileDesk<R> {
    ghost use Rattle.gate_desk.specs.Outside.{Starts, FailsToStart, Takes, AreNext, IsAtEnd, Writes, WritesPart, HasFailed};
    ghost use Rattle.file_desk.specs.Untold.{told_by, ready, skipped};

    ghost outside = { told_by };

    ghost ready = { λ d slot. length (ready d slot) };

    fn start(&mut self, slot: Slot, name: &str, access: Access) -> Result<(), Failed>
        ensures ok { OnOk result
            (Starts slot name.now access (told_by self.old) (told_by self.new)) }
        ensures err { OnErr result
            (FailsToStart slot (told_by self.old) (told_by self.new)) }
        ensures leaves { OnOk result
            ((told_by self.new).start_faults ≡ (told_by self.old).start_faults) }
        ensures counts { self.new.start_faults
            ≡ counts_after result slot self.old.start_faults }
        ensures accesses { self.new.accesses
            ≡ accesses_after result slot access self.old.accesses }
        ensures none { OnOk result (at self.new.waiting slot ≡ []) }
        ensures ahead { self.new.ahead ≡ ahead_after result slot self.old.ahead }
        ensures unread { self.new.unread
            ≡ unread_after result slot self.old.unread self.new.unread }
        ensures takes { OnOk result (TakesNothingElse slot self.old.got
            self.old.waiting self.new.got self.new.waiting) }
        // A call that fails, though the system refused no octets, adds nothing, and loses nothing that waited.
        ensures fails { OnErr result (self.new.refused ≡ None → TakesNothing self.old.got
            self.old.waiting self.new.got self.new.waiting) }
        ensures refused { IsSome self.old.refused → IsErr result }
    {
        let started = start_slot(
            &self.rt,
            &mut self.places,
            &mut self.refused,
            slot,
            name,
            access,
        );
        match started {
            Ok(()) => Ok(()),
            Err(e) => {
                self.start_faults.raise(slot);
                Err(e)
            }
        }
    }

    fn read(&mut self, slot: Slot, buffer: &mut [u8]) -> Result<usize, Failed>
        ensures fits { IfOk result (λ n. n ≤ length buffer.new) }
        ensures ok { IfOk result
            (λ n. Takes slot n (told_by self.old) (told_by self.new)) }
        ensures octets { IfOk result
            (λ n. AreNext (take n buffer.new) (told_by self.old) slot) }
        ensures end { IfOk result
            (λ n. n ≡ 0 → 0 < length buffer.old → IsAtEnd (told_by self.old) slot) }
        ensures err { OnErr result
            (Takes slot 0 (told_by self.old) (told_by self.new)) }
        ensures cause { OnErr result
            (HasFailed slot (told_by self.old) (told_by self.new)) }
        ensures leaves { OnOk result
            ((told_by self.new).faults ≡ (told_by self.old).faults) }
        ensures counts { self.new.faults ≡ counts_after result slot self.old.faults }
        ensures accesses { self.new.accesses ≡ self.old.accesses }
        ensures ahead { IfOk result (λ n. 0 < length (at self.old.ahead slot)
            → TakesAhead n buffer.new (at self.old.ahead slot)
            (at self.new.ahead slot)) }
        ensures others { self.new.ahead
            ≡ put self.old.ahead slot (at self.new.ahead slot) }
        ensures unread { ReadConsumes (at self.old.unread slot)
            (at self.new.unread slot) result buffer.new }
        ensures unread_others { self.new.unread
            ≡ put self.old.unread slot (at self.new.unread slot) }
        ensures takes { OnOk result (TakesNothing self.old.got self.old.waiting
            self.new.got self.new.waiting) }
        ensures fails { OnErr result (self.new.refused ≡ None → TakesNothing self.old.got
            self.old.waiting self.new.got self.new.waiting) }
        ensures hands_out { OnOk result (at self.old.ahead slot ≡ []
            → self.new.waiting ≡ each []) }
        ensures refused { IsSome self.old.refused → IsErr result }
    {
        match read_slot(&self.rt, &mut self.places, &mut self.refused, slot, buffer) {
            Ok(n) => Ok(n),
            Err(e) => {
                self.faults.raise(slot);
                Err(e)
            }
        }
    }

    #[inline(always)]
    fn write(&mut self, slot: Slot, piece: &[u8]) -> Result<usize, Failed>
        ensures fits { IfOk result (λ n. n ≤ length piece.now) }
        ensures some { IfOk result (λ n. 0 < length piece.now → 0 < n) }
        ensures ok { IfOk result (λ n. Writes slot (take n piece.now)
            (told_by self.old) (told_by self.new)) }
        ensures err { OnErr result
            (Writes slot [] (told_by self.old) (told_by self.new)) }
        ensures cause { OnErr result
            (HasFailed slot (told_by self.old) (told_by self.new)) }
        ensures leaves { OnOk result
            ((told_by self.new).faults ≡ (told_by self.old).faults) }
        ensures counts { self.new.faults ≡ counts_after result slot self.old.faults }
        ensures accesses { self.new.accesses ≡ self.old.accesses }
        ensures ahead { self.new.ahead ≡ self.old.ahead }
        ensures unread { self.new.unread ≡ self.old.unread }
        ensures whole { IfOk result (λ n. n ≡ length piece.now) }
        ensures waits { OnOk result
            (Waits slot piece.now self.old.waiting self.new.waiting) }
        ensures takes { OnOk result (TakesPiece slot piece.now self.old.got
            self.old.waiting self.new.got self.new.waiting) }
        ensures fails { OnErr result (self.new.refused ≡ None → TakesNothing self.old.got
            self.old.waiting self.new.got self.new.waiting) }
        ensures refused { IsSome self.old.refused → IsErr result }
    {
        self.write_both(slot, piece, &[])?;
        Ok(piece.len())
    }

    /// What was read ahead of the slot. Once the system refused a gathered octet there is none, so that what is read next fails.
    #[inline(always)]
    fn ahead(&self, slot: Slot) -> &[u8]
        ensures count { length result.now ≡ length (ready self.now slot) }
        ensures octets { AreNext result.now (told_by self.now) slot }
        ensures exact { result.now ≡ ready self.now slot }
    {
        if self.refused.is_some() {
            return &[];
        }
        self.places.at(slot).ahead()
    }

    #[inline(always)]
    fn skip(&mut self, slot: Slot, count: usize)
        ensures takes { Takes slot count (told_by self.old) (told_by self.new) }
        ensures leaves { (told_by self.new).faults ≡ (told_by self.old).faults }
        ensures exact { self.new ≡ skipped slot count self.old }
    {
        self.places.at_mut(slot).skip(count);
    }

    fn seed(&self) -> u64 {
        self.seed
    }

    #[inline(always)]
    fn write_both(&mut self, slot: Slot, first: &[u8], second: &[u8]) -> Result<(), Failed>
        ensures ok { OnOk result (Writes slot (first.now ++ second.now)
            (told_by self.old) (told_by self.new)) }
        ensures err { OnErr result (WritesPart slot (first.now ++ second.now)
            (told_by self.old) (told_by self.new)) }
        ensures cause { OnErr result
            (HasFailed slot (told_by self.old) (told_by self.new)) }
        ensures leaves { OnOk result
            ((told_by self.new).faults ≡ (told_by self.old).faults) }
        ensures counts { self.new.faults ≡ counts_after result slot self.old.faults }
        ensures accesses { self.new.accesses ≡ self.old.accesses }
        ensures ahead { self.new.ahead ≡ self.old.ahead }
        ensures unread { self.new.unread ≡ self.old.unread }
        ensures waits { OnOk result
            (Waits slot (first.now ++ second.now) self.old.waiting self.new.waiting) }
        ensures takes { OnOk result (TakesPiece slot (first.now ++ second.now)
            self.old.got self.old.waiting self.new.got self.new.waiting) }
        ensures fails { OnErr result (self.new.refused ≡ None → TakesNothing self.old.got
            self.old.waiting self.new.got self.new.waiting) }
        ensures refused { IsSome self.old.refused → IsErr result }
    {
        let written = write_slot(
            &self.rt,
            &mut self.places,
            &mut self.refused,
            slot,
            first,
            second,
        );
        match written {
            Ok(()) => Ok(()),
            Err(e) => {
                self.faults.raise(slot);
                Err(e)
            }
        }
    }
}
