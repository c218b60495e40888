// Octets that are taken in pieces: a unit ends with a piece, or the rest goes on.
ghost use Rattle.std.specs.Prelude.{◌≡◌, ◌≤◌, ◌<◌, ◌+◌, ◌-◌, ◌++◌, length, take, true, false, IfOk, OnOk, OnErr, IfSome, IfNone};
ghost use Rattle.std.specs.Str.{bytes_eq};
ghost use Rattle.dialogue.specs.Prelude.{IsUnit};
ghost use Rattle.audit_streams.specs.Inside.Transcripts.{IsOf, IsOther, rest_of, with_octets, ended};
ghost use Rattle.stream_model.specs.declared.refusals.TheConstants.{STREAM_LIMIT};

use crate::transcript::Transcript;
use dialogue::Dialogue;
use gate_base::OutOfMemory;
use std::alloc::Global;

/// Takes octets, which follow those of the transcript. After want of memory some of them may have been taken.
pub(crate) fn take_octets<D: Dialogue>(
    alloc: Global,
    dialogue: &mut D,
    transcript: &mut Transcript,
    released: &mut bool,
    octets: &[u8],
) -> Result<(), OutOfMemory>
    requires of { IsOf (D.meaning dialogue.old) transcript.old released.old }
    requires few { length transcript.old.octets + length octets.now < STREAM_LIMIT }
    ensures taken { OnOk result
        (transcript.new.octets ≡ transcript.old.octets ++ octets.now) }
    ensures of { IsOf (D.meaning dialogue.old) transcript.new released.new }
    ensures same { dialogue.new ≡ dialogue.old }
{
    let mut at = 0;
    while at < octets.len() {
        at += take_piece(alloc, dialogue, transcript, released, &octets[at..])?;
    }
    Ok(())
}

// Takes some of these octets, and at least one. The answer is how many. After want of memory none was taken.
fn take_piece<D: Dialogue>(
    alloc: Global,
    dialogue: &mut D,
    transcript: &mut Transcript,
    released: &mut bool,
    octets: &[u8],
) -> Result<usize, OutOfMemory>
    requires some { 1 ≤ length octets.now }
    requires of { IsOf (D.meaning dialogue.old) transcript.old released.old }
    requires few { length transcript.old.octets + length octets.now < STREAM_LIMIT }
    ensures some { IfOk result (λ count. 1 ≤ count) }
    ensures within { IfOk result (λ count. count ≤ length octets.now) }
    ensures taken { IfOk result (λ count. transcript.new.octets
        ≡ transcript.old.octets ++ take count octets.now) }
    ensures none { OnErr result (transcript.new ≡ transcript.old) }
    ensures of { IsOf (D.meaning dialogue.old) transcript.new released.new }
    ensures same { dialogue.new ≡ dialogue.old }
{
    if *released {
        return take_released(dialogue, transcript, released, octets);
    }
    if transcript.rest_len() == 0 {
        return take_held(alloc, dialogue, transcript, released, octets, octets);
    }
    let joined = joined(alloc, transcript.rest(), octets)?;
    take_held(alloc, dialogue, transcript, released, octets, &joined)
}

// Takes a piece behind a released rest, whose unit ends where the first unit of what follows would end, and goes on as it is.
fn take_released<D: Dialogue>(
    dialogue: &D,
    transcript: &mut Transcript,
    released: &mut bool,
    octets: &[u8],
) -> Result<usize, OutOfMemory>
    requires some { 1 ≤ length octets.now }
    requires free { released.old ≡ true }
    requires of { IsOf (D.meaning dialogue.now) transcript.old released.old }
    requires few { length transcript.old.octets + length octets.now < STREAM_LIMIT }
    ensures some { IfOk result (λ count. 1 ≤ count) }
    ensures within { IfOk result (λ count. count ≤ length octets.now) }
    ensures taken { IfOk result (λ count. transcript.new.octets
        ≡ transcript.old.octets ++ take count octets.now) }
    ensures none { OnErr result (transcript.new ≡ transcript.old) }
    ensures of { IsOf (D.meaning dialogue.now) transcript.new released.new }
{
    match dialogue.first_end(octets) {
        Some(end) => {
            transcript.extend(&octets[..end])?;
            transcript.close();
            *released = false;
            Ok(end)
        }
        None => {
            transcript.extend(octets)?;
            Ok(octets.len())
        }
    }
}

// Takes a piece behind a rest that is empty or held, with which the octets are joined.
fn take_held<D: Dialogue>(
    alloc: Global,
    dialogue: &mut D,
    transcript: &mut Transcript,
    released: &mut bool,
    octets: &[u8],
    joined: &[u8],
) -> Result<usize, OutOfMemory>
    requires some { 1 ≤ length octets.now }
    requires waits { released.old ≡ false }
    requires joined { joined.now ≡ rest_of transcript.old ++ octets.now }
    requires of { IsOf (D.meaning dialogue.old) transcript.old released.old }
    requires few { length transcript.old.octets + length octets.now < STREAM_LIMIT }
    ensures some { IfOk result (λ count. 1 ≤ count) }
    ensures within { IfOk result (λ count. count ≤ length octets.now) }
    ensures taken { IfOk result (λ count. transcript.new.octets
        ≡ transcript.old.octets ++ take count octets.now) }
    ensures none { OnErr result (transcript.new ≡ transcript.old) }
    ensures of { IsOf (D.meaning dialogue.old) transcript.new released.new }
    ensures same { dialogue.new ≡ dialogue.old }
{
    match dialogue.first_end(joined) {
        Some(end) => {
            let count = end - (joined.len() - octets.len());
            end_unit(
                alloc,
                dialogue,
                transcript,
                &octets[..count],
                &joined[..end],
            )?;
            Ok(count)
        }
        None => {
            transcript.extend(octets)?;
            *released = !dialogue.holds(joined);
            Ok(octets.len())
        }
    }
}

// Octets, and others behind them.
fn joined(alloc: Global, octets: &[u8], others: &[u8]) -> Result<Vec<u8>, OutOfMemory>
    ensures { IfOk result (λ all. all.items ≡ octets.now ++ others.now) }
{
    let mut all = Vec::from_slice(alloc, octets)?;
    all.extend_from_slice(others)?;
    Ok(all)
}

// The rest and octets that follow are a unit, which goes on as its image. After want of memory nothing has changed.
fn end_unit<D: Dialogue>(
    alloc: Global,
    dialogue: &mut D,
    transcript: &mut Transcript,
    octets: &[u8],
    unit: &[u8],
) -> Result<(), OutOfMemory>
    requires joined { unit.now ≡ rest_of transcript.old ++ octets.now }
    requires of { IsOf (D.meaning dialogue.old) transcript.old false }
    requires unit { IsUnit (D.meaning dialogue.old) unit.now }
    requires few { length transcript.old.octets + length octets.now < STREAM_LIMIT }
    ensures ok { OnOk result (transcript.new
        ≡ ended (D.meaning dialogue.old) (with_octets transcript.old octets.now)) }
    ensures err { OnErr result (transcript.new ≡ transcript.old) }
    ensures same { dialogue.new ≡ dialogue.old }
{
    match other_image(alloc, dialogue, unit)? {
        Some(image) => transcript.change(octets, &image),
        None => {
            transcript.extend(octets)?;
            transcript.close();
            Ok(())
        }
    }
}

// The image of a unit, where it is another one.
fn other_image<D: Dialogue>(
    alloc: Global,
    dialogue: &mut D,
    unit: &[u8],
) -> Result<Option<Vec<u8>>, OutOfMemory>
    requires { IsUnit (D.meaning dialogue.old) unit.now }
    ensures other { IfOk result (λ answer. IfSome answer
        (λ image. IsOther (D.meaning dialogue.old) unit.now image.items)) }
    ensures same { IfOk result (λ answer. IfNone answer
        (bytes_eq ((D.meaning dialogue.old).image unit.now) unit.now ≡ true)) }
    ensures kept { dialogue.new ≡ dialogue.old }
{
    if !dialogue.bears(unit) {
        return Ok(None);
    }
    let image = dialogue.image(alloc, unit)?;
    if image.as_slice() == unit {
        return Ok(None);
    }
    Ok(Some(image))
}
