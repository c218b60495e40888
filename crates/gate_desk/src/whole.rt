// Whole pieces over a desk.
ghost use Rattle.std.specs.Prelude.{◌≡◌, ◌+◌, ◌^◌, ◌<◌, ◌≤◌, take, length, IfOk, IfErr, IsErrOf, OnOk, OnErr};
ghost use Rattle.gate_desk.specs.Outside.{Writes, WritesPart, Takes, TakesFewer, AreUpTo, HasFailed, CanRead, CanWrite};
ghost use Rattle.gate_desk.specs.Stops.{HasStopped};

use crate::{Desk, Failed, Slot};
use std::alloc::{AllocError, Global};

/// Why octets were not taken.
#[derive(Clone, Copy, Debug, PartialEq, Eq)]
pub enum TakeStop {
    Desk(Slot),
    OutOfMemory,
}

/// Writes the whole piece. After a failure a prefix of it was written.
#[inline(always)]
pub fn write_whole<D: Desk>(desk: &mut D, slot: Slot, piece: &[u8]) -> Result<(), Failed>
    requires { CanWrite (D.outside desk.old) slot }
    ensures ok { OnOk result
        (Writes slot piece.now (D.outside desk.old) (D.outside desk.new)) }
    ensures err { OnErr result
        (WritesPart slot piece.now (D.outside desk.old) (D.outside desk.new)) }
    ensures cause { OnErr result
        (HasFailed slot (D.outside desk.old) (D.outside desk.new)) }
    ensures leaves { OnOk result
        ((D.outside desk.new).faults ≡ (D.outside desk.old).faults) }
{
    if piece.is_empty() {
        return Ok(());
    }
    let n = desk.write(slot, piece)?;
    if n == piece.len() {
        return Ok(());
    }
    write_rest(desk, slot, &piece[n..])
}

// Writes what a first write left of a piece. Out of line, since most desks take a piece whole.
#[inline(never)]
fn write_rest<D: Desk>(desk: &mut D, slot: Slot, piece: &[u8]) -> Result<(), Failed>
    requires { CanWrite (D.outside desk.old) slot }
    ensures ok { OnOk result
        (Writes slot piece.now (D.outside desk.old) (D.outside desk.new)) }
    ensures err { OnErr result
        (WritesPart slot piece.now (D.outside desk.old) (D.outside desk.new)) }
    ensures cause { OnErr result
        (HasFailed slot (D.outside desk.old) (D.outside desk.new)) }
    ensures leaves { OnOk result
        ((D.outside desk.new).faults ≡ (D.outside desk.old).faults) }
{
    let mut done = 0;
    while done < piece.len() {
        let n = desk.write(slot, &piece[done..])?;
        done += n;
    }
    Ok(())
}

/// Fills the buffer from a slot, or takes what is left there.
pub fn read_full<D: Desk>(desk: &mut D, slot: Slot, buffer: &mut [u8]) -> Result<usize, Failed>
    requires { CanRead (D.outside desk.old) slot }
    ensures fits { IfOk result (λ n. n ≤ length buffer.old) }
    ensures ok { IfOk result
        (λ n. Takes slot n (D.outside desk.old) (D.outside desk.new)) }
    ensures octets { IfOk result (λ n. AreUpTo (length buffer.old) (take n buffer.new)
        (D.outside desk.old) slot) }
    ensures err { OnErr result (TakesFewer slot (length buffer.old)
        (D.outside desk.old) (D.outside desk.new)) }
    ensures cause { OnErr result
        (HasFailed slot (D.outside desk.old) (D.outside desk.new)) }
    ensures leaves { OnOk result
        ((D.outside desk.new).faults ≡ (D.outside desk.old).faults) }
{
    let mut filled = 0;
    while filled < buffer.len() {
        let n = desk.read(slot, &mut buffer[filled..])?;
        if n == 0 {
            return Ok(filled);
        }
        filled += n;
    }
    Ok(filled)
}

/// What is left of a slot, or its first `limit + 1` octets.
pub fn read_up_to<D: Desk>(
    alloc: Global,
    desk: &mut D,
    slot: Slot,
    limit: usize,
) -> Result<Vec<u8>, TakeStop>
    requires start { CanRead (D.outside desk.old) slot }
    requires room { limit + 1 < 2 ^ 64 }
    ensures ok { IfOk result
        (λ v. Takes slot (length v.items) (D.outside desk.old) (D.outside desk.new)) }
    ensures octets { IfOk result
        (λ v. AreUpTo (limit + 1) v.items (D.outside desk.old) slot) }
    ensures err { OnErr result
        (TakesFewer slot (limit + 1) (D.outside desk.old) (D.outside desk.new)) }
    ensures cause { IfErr result
        (λ e. HasStopped e slot (D.outside desk.old) (D.outside desk.new)) }
    ensures leaves { OnOk result
        ((D.outside desk.new).faults ≡ (D.outside desk.old).faults) }
{
    let mut octets = vec![in alloc; 0; limit + 1].map_err(|_: AllocError| TakeStop::OutOfMemory)?;
    let n = read_full(desk, slot, &mut octets).map_err(|_: Failed| TakeStop::Desk(slot))?;
    octets.truncate(n);
    Ok(octets)
}
