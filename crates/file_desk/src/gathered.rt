// Octets on their way to a file.
ghost use Rattle.std.specs.Prelude.{◌≡◌, ◌+◌, ◌≤◌, ◌<◌, ◌++◌, [], take, length, IfOk, OnOk, OnErr};
ghost use Rattle.std.specs.Io.KnownBytes.{Appends};
ghost use Rattle.file_desk.specs.Inside.Gathering.{gathered_after};

use gate_desk::Failed;
use std::alloc::{AllocError, Allocator};
use std::io::{self, Write};
use std::marker::Model;

/// How many octets are gathered before they are written out: more than a piece of the gateway has.
const GATHER: usize = 1 << 17;

/// What became of a piece.
#[derive(Clone, Copy, Debug, PartialEq, Eq)]
pub enum Gathering {
    /// All of it is gathered.
    Gathered,
    /// There is no room behind what is gathered.
    NoRoom,
    /// It can't be gathered.
    Refused,
}

/// Octets that are gathered for a file, and that aren't written out yet.
#[derive(Drop)]
pub struct Gathered<A: Allocator> {
    octets: Vec<u8, A>,
    // how many of them, from the first on, are gathered
    count: usize,
}

impl<A: Allocator> Model for Gathered<A> {
    ghost use Rattle.std.specs.Prelude.{ℕ, List, ◌≤◌, take, length};

    ghost Value = { List ℕ };

    ghost view = { λ d. take d.count d.octets.items };

    ghost invariant = { λ d. d.count ≤ length d.octets.items };
}

// Puts a piece behind the first octets of the room, and answers how many stand there then.
#[inline(always)]
fn put_behind(room: &mut [u8], count: usize, piece: &[u8]) -> usize
    requires { count + length piece.now ≤ length room.old }
    ensures count { result ≡ count + length piece.now }
    ensures octets { take result room.new ≡ take count room.old ++ piece.now }
{
    let end = count + piece.len();
    room[count..end].copy_from_slice(piece);
    end
}

impl<A: Allocator> Gathered<A> {
    /// None, with their room. The error is want of memory.
    pub fn new(alloc: A) -> Result<Gathered<A>, AllocError>
        ensures { IfOk result (λ none. none ≡ []) }
    {
        let octets = vec![in alloc; 0; GATHER]?;
        Ok(Gathered { octets, count: 0 })
    }

    /// Gathers two whole pieces, the one behind the other, or nothing of them. What is greater than the room is
    /// gathered where nothing else is.
    #[inline(always)]
    pub fn gather(&mut self, first: &[u8], second: &[u8]) -> Gathering
        ensures { self.new
            ≡ gathered_after result (first.now ++ second.now) self.old }
    {
        let room = self.octets.len() - self.count;
        if room < first.len() || room - first.len() < second.len() {
            return self.gather_large(first, second);
        }
        let middle = put_behind(&mut self.octets, self.count, first);
        self.count = put_behind(&mut self.octets, middle, second);
        Gathering::Gathered
    }

    // The same of pieces for which there is no room behind what is gathered.
    #[inline(never)]
    fn gather_large(&mut self, first: &[u8], second: &[u8]) -> Gathering
        ensures { self.new
            ≡ gathered_after result (first.now ++ second.now) self.old }
    {
        if self.count > 0 {
            return Gathering::NoRoom;
        }
        let Some(size) = first.len().checked_add(second.len()) else {
            return Gathering::Refused;
        };
        if self.octets.resize(size, 0).is_err() {
            return Gathering::Refused;
        }
        let middle = put_behind(&mut self.octets, 0, first);
        self.count = put_behind(&mut self.octets, middle, second);
        Gathering::Gathered
    }

    /// Writes all of them to a file. It fails only where there are some; they stay then, though the file may have got some.
    pub fn write_out<W: Write>(&mut self, file: &mut W) -> Result<(), Failed>
        ensures written { OnOk result
            (Appends (W.contents file.old) (W.contents file.new) self.old) }
        ensures none { OnOk result (self.new ≡ []) }
        ensures err { OnErr result (self.new ≡ self.old) }
        ensures some { OnErr result (0 < length self.old) }
    {
        if self.count == 0 {
            return Ok(());
        }
        file.write_all(&self.octets[..self.count])
            .map_err(|_: io::Error| Failed)?;
        self.count = 0;
        Ok(())
    }
}
