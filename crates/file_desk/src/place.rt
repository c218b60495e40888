// Where a slot of the desk over files leads.
ghost use Rattle.std.specs.Prelude.{◌≡◌, ◌<◌, ◌≤◌, ◌++◌, ℕ, List, Option, Some, [], length, min, drop, option_map, unwrap_or, IfOk, IfErr, IfSome, MatchOption, OnOk, OnErr};
ghost use Rattle.std.specs.Io.KnownBytes.{Appends, ReadConsumes};
ghost use Rattle.file_desk.specs.Gathering.{waiting, got, ahead, TakesAhead};
ghost use Rattle.file_desk.specs.Inside.Gathering.{access_of, unread, gathered_after};

use crate::gathered::{Gathered, Gathering};
use gate_desk::{Access, Failed, PerSlot, Slot};
use std::alloc::Allocator;
use std::fs::{self, Metadata, OpenFile, OpenOptions};
use std::io::{self, BufRead, BufReader, ErrorKind, Read, Write};
use std::os::unix::fs::MetadataExt;
use std::rt::Runtime;

/// How many octets of a file are read ahead.
const READ_AHEAD: usize = 1 << 16;

/// How often in a row a read is tried again that a signal interrupted.
const MOST_INTERRUPTIONS: u32 = 100;

/// Where a slot leads, and what is gathered on its way there.
#[derive(Drop)]
pub enum Place<F: Read + Drop, A: Allocator> {
    Nowhere,
    Input(BufReader<F, A>),
    Output(F, Gathered<A>),
    StandardOutput(Gathered<A>),
}

// Whether this file stands at the place.
fn is_at<F: Read + OpenFile + Drop, A: Allocator>(
    file: &Metadata,
    place: &Place<F, A>,
) -> io::Result<bool> {
    let there = match place {
        Place::Input(reader) => reader.get_ref().metadata()?,
        Place::Output(output, _) => output.metadata()?,
        _ => return Ok(false),
    };
    Ok(there.dev() == file.dev() && there.ino() == file.ino())
}

// Whether this file stands at some place, by whatever name it was opened there.
fn is_open<F: Read + OpenFile + Drop, A: Allocator>(
    file: &Metadata,
    places: &PerSlot<Place<F, A>>,
) -> io::Result<bool> {
    if !file.is_file() {
        return Ok(false);
    }
    Ok(
        is_at(file, &places.settings)?
            || is_at(file, &places.left_in)?
            || is_at(file, &places.right_in)?
            || is_at(file, &places.left_given)?
            || is_at(file, &places.right_given)?
            || is_at(file, &places.report_given)?
            || is_at(file, &places.left_out)?
            || is_at(file, &places.right_out)?
            || is_at(file, &places.report)?,
    )
}

// Opens a file for writing, creates it, or empties it. It is emptied only once it is open and is known to be no file that is open
// already. So a name that is turned to another file meanwhile loses nothing.
fn create_unless_open<R: Runtime>(
    rt: &R,
    places: &PerSlot<Place<R::File, R::A>>,
    name: &str,
) -> io::Result<R::File> {
    let mut how = OpenOptions::new();
    how.write(true).create(true);
    let file = how.open(rt, name)?;
    let opened = file.metadata()?;
    if is_open(&opened, places)? {
        return Err(io::Error::from(ErrorKind::AlreadyExists));
    }
    if opened.is_file() {
        file.set_len(0)?;
    }
    Ok(file)
}

// Fails where standard output is a file that is open already. Where the system has no name for standard output, nothing is known of it.
fn refuse_open_output<R: Runtime>(
    rt: &R,
    places: &PerSlot<Place<R::File, R::A>>,
) -> io::Result<()> {
    match fs::metadata(rt, "/dev/stdout") {
        Ok(file) => {
            if is_open(&file, places)? {
                return Err(io::Error::from(ErrorKind::AlreadyExists));
            }
            Ok(())
        }
        Err(e) => {
            if e.kind() == ErrorKind::NotFound {
                return Ok(());
            }
            Err(e)
        }
    }
}

/// The place of a file of this name. The name `-` of a report is standard output. A regular file that is open already, by whatever
/// name, is not written: the error comes before it would be emptied. Neither is one of which the system doesn't tell which file it is, but
/// for standard output without a name.
#[inline(never)]
pub fn open_place<R: Runtime>(
    rt: &R,
    places: &PerSlot<Place<R::File, R::A>>,
    slot: Slot,
    name: &str,
    access: Access,
) -> io::Result<Place<R::File, R::A>>
    ensures none { IfOk result (λ place. waiting place ≡ []) }
    ensures access { IfOk result (λ place. access_of place ≡ Some access) }
    ensures ahead { IfOk result (λ place. ahead place ≡ []) }
{
    match access {
        Access::Read => {
            let file = fs::open(rt, name)?;
            let reader = BufReader::with_capacity(rt.alloc(), READ_AHEAD, file)?;
            Ok(Place::Input(reader))
        }
        Access::Write => {
            let gathered = Gathered::new(rt.alloc())?;
            if slot == Slot::Report && name == "-" {
                refuse_open_output(rt, places)?;
                Ok(Place::StandardOutput(gathered))
            } else {
                let file = create_unless_open(rt, places, name)?;
                Ok(Place::Output(file, gathered))
            }
        }
    }
}

// Asks for octets, and again, so often at most, where a signal interrupts that.
fn read_again<F: Read>(reader: &mut F, buffer: &mut [u8], tries: u32) -> Result<usize, Failed>
    ensures fits { IfOk result (λ n. n ≤ length buffer.new) }
    ensures unread { ReadConsumes (F.remaining reader.old) (F.remaining reader.new)
        result buffer.new }
{
    match reader.read(buffer) {
        Ok(n) => Ok(n),
        Err(e) => {
            if e.kind() == ErrorKind::Interrupted && tries > 0 {
                return read_again(reader, buffer, tries - 1);
            }
            Err(Failed)
        }
    }
}

impl<F: Read + Drop, A: Allocator> Place<F, A> {
    /// Takes octets that were read ahead, where there are some, so that the system isn't asked.
    pub fn take_ahead(&mut self, buffer: &mut [u8]) -> Option<usize>
        ensures fits { IfSome result (λ n. n ≤ length buffer.new) }
        ensures ahead { MatchOption result (ahead self.old ≡ [])
            (λ n. TakesAhead n buffer.new (ahead self.old) (ahead self.new)) }
        ensures some { IfSome result (λ n. 0 < length (ahead self.old)) }
        ensures unread { unread F.remaining self.new
            ≡ option_map (drop (unwrap_or result 0)) (unread F.remaining self.old) }
        ensures waiting { waiting self.new ≡ waiting self.old }
        ensures got { (contents : F → Option (List ℕ))
            → got contents self.new ≡ got contents self.old }
        ensures access { access_of self.new ≡ access_of self.old }
    {
        match self {
            Place::Input(reader) => {
                let ahead = reader.buffer();
                if ahead.is_empty() {
                    return None;
                }
                let n = ahead.len().min(buffer.len());
                buffer[..n].copy_from_slice(&ahead[..n]);
                reader.consume(n);
                Some(n)
            }
            _ => None,
        }
    }

    /// The octets that were read ahead.
    #[inline(always)]
    pub fn ahead(&self) -> &[u8]
        ensures { result.now ≡ ahead self.now }
    {
        match self {
            Place::Input(reader) => reader.buffer(),
            _ => &[],
        }
    }

    /// Drops so many of the octets that were read ahead, or all.
    #[inline(always)]
    pub fn skip(&mut self, count: usize)
        ensures ahead { ahead self.new ≡ drop count (ahead self.old) }
        ensures unread { unread F.remaining self.new
            ≡ option_map (drop (min count (length (ahead self.old))))
            (unread F.remaining self.old) }
        ensures waiting { waiting self.new ≡ waiting self.old }
        ensures got { (contents : F → Option (List ℕ))
            → got contents self.new ≡ got contents self.old }
        ensures access { access_of self.new ≡ access_of self.old }
    {
        match self {
            Place::Input(reader) => reader.consume(count),
            _ => {}
        }
    }

    /// Asks the system for octets. The error is that it fails, or that the place isn't read.
    #[inline(never)]
    pub fn read(&mut self, buffer: &mut [u8]) -> Result<usize, Failed>
        ensures fits { IfOk result (λ n. n ≤ length buffer.new) }
        ensures unread { ReadConsumes (unread F.remaining self.old)
            (unread F.remaining self.new) result buffer.new }
        ensures waiting { waiting self.new ≡ waiting self.old }
        ensures got { (contents : F → Option (List ℕ))
            → got contents self.new ≡ got contents self.old }
        ensures access { access_of self.new ≡ access_of self.old }
    {
        match self {
            Place::Input(reader) => read_again(reader, buffer, MOST_INTERRUPTIONS),
            _ => Err(Failed),
        }
    }

    /// Gathers two whole pieces, the one behind the other, or nothing of them.
    #[inline(always)]
    pub fn gather(&mut self, first: &[u8], second: &[u8]) -> Gathering
        ensures waits { waiting self.new
            ≡ gathered_after result (first.now ++ second.now) (waiting self.old) }
        ensures got { (contents : F → Option (List ℕ))
            → got contents self.new ≡ got contents self.old }
        ensures access { access_of self.new ≡ access_of self.old }
        ensures ahead { ahead self.new ≡ ahead self.old }
        ensures unread { unread F.remaining self.new ≡ unread F.remaining self.old }
    {
        match self {
            Place::Output(_, gathered) => gathered.gather(first, second),
            Place::StandardOutput(gathered) => gathered.gather(first, second),
            _ => Gathering::Refused,
        }
    }
}

// Standard output as a file.
#[derive(Drop)]
struct StandardOutput<'a, R: Runtime> {
    rt: &'a R,
}

impl<'a, R: Runtime> Write for StandardOutput<'a, R> {
    fn write(&mut self, octets: &[u8]) -> io::Result<usize> {
        self.rt.write_some(octets)
    }

    fn flush(&mut self) -> io::Result<()> {
        Ok(())
    }
}

/// Writes out all that is gathered for a slot's place. An error names the slot, and comes only where something is gathered;
/// it stays then, though the system may have got some of it.
pub fn write_out<R: Runtime>(
    rt: &R,
    slot: Slot,
    place: &mut Place<R::File, R::A>,
) -> Result<(), Slot>
    ensures none { OnOk result (waiting place.new ≡ []) }
    ensures access { access_of place.new ≡ access_of place.old }
    ensures ahead { ahead place.new ≡ ahead place.old }
    ensures unread { unread R.File.remaining place.new
        ≡ unread R.File.remaining place.old }
    ensures written { OnOk result (Appends (got R.File.contents place.old)
        (got R.File.contents place.new) (waiting place.old)) }
    ensures named { IfErr result (λ refused. refused ≡ slot) }
    ensures refuses { OnErr result
        ((0 < length (waiting place.old)) × (waiting place.new ≡ waiting place.old)) }
{
    match place {
        Place::Output(file, gathered) => gathered.write_out(file).map_err(|_: Failed| slot),
        Place::StandardOutput(gathered) => gathered
            .write_out(&mut StandardOutput { rt })
            .map_err(|_: Failed| slot),
        _ => Ok(()),
    }
}
