ghost use Rattle.std.specs.Prelude.{◌≡◌, IfOk};
ghost use Rattle.dns_stream.specs.Prelude.{dns_units};

use dialogue::{Dialogue, Learns, UnitImage};
use dns_gateway::addresses_of;
use dns_stream::{DnsUnits, UnitStop, rests_are_short, unit_end, unit_message, unit_renamed};
use gate_base::{Addr, OutOfMemory};
use std::alloc::Global;
use std::test::Fail;

/// What is listed: 10.0.0.5, 10.0.0.8 and 192.168.200.1 with their images, and 10.0.0.9, which is kept.
const LIST: [(Addr, Option<Addr>); 4] = [
    (Addr(0x0a00_0005), Some(Addr(0xc0a8_c801))),
    (Addr(0x0a00_0008), Some(Addr(0xc0a8_c802))),
    (Addr(0xc0a8_c801), Some(Addr(0x0a00_0005))),
    (Addr(0x0a00_0009), None),
];

/// Octets that come, and what goes on for the first unit of them; nothing where they are a rest.
const CASES: [(&[u8], &[u8]); 9] = [
    // A question of 29 octets without an address.
    (
        b"\0\x1d\0\x01\x01\0\0\x01\0\0\0\0\0\0\x03ftp\x07example\0\0\x01\0\x01",
        b"\0\x1d\0\x01\x01\0\0\x01\0\0\0\0\0\0\x03ftp\x07example\0\0\x01\0\x01",
    ),
    // An answer of 72 octets with two addresses and an OPT record (RFC 6891), and the next unit's first octets.
    (
        b"\0H\0\x01\x81\x80\0\x01\0\x02\0\0\0\x01\x03ftp\x07example\0\0\x01\0\x01\
        \xc0\x0c\0\x01\0\x01\0\0\x0e\x10\0\x04\x0a\0\0\x05\
        \xc0\x0c\0\x01\0\x01\0\0\x0e\x10\0\x04\x0a\0\0\x08\
        \0\0)\x04\xd0\0\0\x80\0\0\0\0\x05",
        b"\0H\0\x01\x81\x80\0\x01\0\x02\0\0\0\x01\x03ftp\x07example\0\0\x01\0\x01\
        \xc0\x0c\0\x01\0\x01\0\0\0\0\0\x04\xc0\xa8\xc8\x01\
        \xc0\x0c\0\x01\0\x01\0\0\0\0\0\x04\xc0\xa8\xc8\x02\
        \0\0)\x04\xd0\0\0\x80\0\0\0",
    ),
    // The same with an address that is kept, and one that isn't listed: both stay, with their lifetimes.
    (
        b"\0H\0\x01\x81\x80\0\x01\0\x02\0\0\0\x01\x03ftp\x07example\0\0\x01\0\x01\
        \xc0\x0c\0\x01\0\x01\0\0\x0e\x10\0\x04\x0a\0\0\x09\
        \xc0\x0c\0\x01\0\x01\0\0\x0e\x10\0\x04\x0a\0\0\x07\
        \0\0)\x04\xd0\0\0\x80\0\0\0",
        b"\0H\0\x01\x81\x80\0\x01\0\x02\0\0\0\x01\x03ftp\x07example\0\0\x01\0\x01\
        \xc0\x0c\0\x01\0\x01\0\0\x0e\x10\0\x04\x0a\0\0\x09\
        \xc0\x0c\0\x01\0\x01\0\0\x0e\x10\0\x04\x0a\0\0\x07\
        \0\0)\x04\xd0\0\0\x80\0\0\0",
    ),
    // A question of 44 octets for a reverse name, which becomes one of 39.
    (
        b"\0,\0\x02\x01\0\0\x01\0\0\0\0\0\0\x011\x03200\x03168\x03192\x07in-addr\x04arpa\0\0\x0c\0\x01",
        b"\0'\0\x02\x01\0\0\x01\0\0\0\0\0\0\x015\x010\x010\x0210\x07in-addr\x04arpa\0\0\x0c\0\x01",
    ),
    // A unit that holds no octets, one that names 8,193, and one that holds no message.
    (b"\0\0\0", b"\0\0"),
    (b"\x20\x01\0", b"\x20\x01"),
    (b"\0\x01\0", b"\0\x01\0"),
    // Rests.
    (b"\0", b""),
    (b"\0\x05four", b""),
];

/// An answer of 157 octets: records of nine reverse names, 1.0.0.10 to 9.0.0.10, which share their ends.
const NINE: &[u8] =
    b"\0\x9d\0\x03\x81\x80\0\0\0\x09\0\0\0\0\x011\x010\x010\x0210\x07in-addr\x04arpa\0\0\x10\0\x01\0\0\0\0\0\0\
    \x012\xc0\x0e\0\x10\0\x01\0\0\0\0\0\0\x013\xc0\x0e\0\x10\0\x01\0\0\0\0\0\0\
    \x014\xc0\x0e\0\x10\0\x01\0\0\0\0\0\0\x015\xc0\x0e\0\x10\0\x01\0\0\0\0\0\0\
    \x016\xc0\x0e\0\x10\0\x01\0\0\0\0\0\0\x017\xc0\x0e\0\x10\0\x01\0\0\0\0\0\0\
    \x018\xc0\x0e\0\x10\0\x01\0\0\0\0\0\0\x019\xc0\x0e\0\x10\0\x01\0\0\0\0\0\0";

/// Images of the nine that share their ends.
const NEAR: [Option<Addr>; 9] = [
    Some(Addr(0xac10_0901)),
    Some(Addr(0xac10_0902)),
    None,
    Some(Addr(0xac10_0904)),
    Some(Addr(0xac10_0905)),
    Some(Addr(0xac10_0906)),
    Some(Addr(0xac10_0907)),
    Some(Addr(0xac10_0908)),
    Some(Addr(0xac10_0909)),
];

/// Images of the nine that share nothing.
const FAR: [Option<Addr>; 9] = [
    Some(Addr(0xc0a8_c865)),
    Some(Addr(0xc1a8_c865)),
    Some(Addr(0xc2a8_c865)),
    Some(Addr(0xc3a8_c865)),
    Some(Addr(0xc4a8_c865)),
    Some(Addr(0xc5a8_c865)),
    Some(Addr(0xc6a8_c865)),
    Some(Addr(0xc7a8_c865)),
    Some(Addr(0xc8a8_c865)),
];

/// Learns each address that isn't known.
fn learn_all(units: &mut DnsUnits, addresses: &[Addr], images: &[Option<Addr>]) {
    for (address, image) in addresses.iter().zip(images) {
        if units.image_of(*address).is_none() && units.len() < 256 {
            units.learn(*address, *image);
        }
    }
}

/// The units by a list.
fn units_with(alloc: Global, list: &[(Addr, Option<Addr>)]) -> Result<DnsUnits, OutOfMemory> {
    let mut units = DnsUnits::new(alloc)?;
    for (address, image) in list {
        learn_all(&mut units, &[*address], &[*image]);
    }
    Ok(units)
}

/// What goes on for the first unit of octets; nothing where they are a rest.
fn sent(alloc: Global, units: &mut DnsUnits, octets: &[u8]) -> Result<Vec<u8>, OutOfMemory> {
    match units.first_end(octets).and_then(|end| octets.get(..end)) {
        Some(unit) => units.image(alloc, unit),
        None => Ok(Vec::new(alloc)),
    }
}

/// The first case that goes on otherwise.
fn first_wrong(
    alloc: Global,
    units: &mut DnsUnits,
    cases: &[(&[u8], &[u8])],
) -> Result<Option<usize>, OutOfMemory> {
    for (place, (octets, image)) in cases.iter().enumerate() {
        if sent(alloc, units, octets)?.as_slice() != *image {
            return Ok(Some(place));
        }
    }
    Ok(None)
}

/// The length of the answer of nine names with these images, unless it grows too much, and its length once they are learned.
fn nine_with(alloc: Global, images: &[Option<Addr>]) -> Result<(Option<usize>, usize), UnitStop> {
    let message = unit_message(alloc, NINE)?;
    let addresses = addresses_of(alloc, &message)?;
    if images.len() != addresses.len() {
        return Err(UnitStop::BadUnit);
    }
    let mut units = DnsUnits::new(alloc)?;
    learn_all(&mut units, &addresses, images);
    let image = units.image(alloc, NINE)?;
    let renamed = unit_renamed(alloc, NINE, message, images)?;
    Ok((renamed.map(|unit| unit.len()), image.len()))
}

/// A unit with its image, which has room for 1,000 octets more.
fn roomy(alloc: Global, units: &mut DnsUnits, unit: &[u8]) -> Result<UnitImage, OutOfMemory>
    ensures image { IfOk result (λ one. one.image.items
        ≡ (dns_units units.old).image one.unit.items) }
    ensures same { units.new ≡ units.old }
{
    let mut image = units.image(alloc, unit)?;
    image.reserve(1_000)?;
    Ok(UnitImage {
        unit: Vec::from_slice(alloc, unit)?,
        image,
    })
}

/// Whether a unit goes on as this image while `expected` is expected, and whether the expected image is handed out.
fn expecting(
    alloc: Global,
    units: &mut DnsUnits,
    expected: &[u8],
    case: (&[u8], &[u8]),
) -> Result<(bool, bool), OutOfMemory> {
    let mut images = Vec::with_capacity(alloc, 1)?;
    images.push_reserved(roomy(alloc, units, expected)?);
    units.expect(images);
    let image = units.image(alloc, case.0)?;
    Ok((image.as_slice() == case.1, image.capacity() >= 1_000))
}

/// Whether the list has grown by the last of `LIST`, and loses it.
fn forgets_last(units: &mut DnsUnits) -> bool {
    let last = Addr(0x0a00_0009);
    let knew = units.len() == 4
        && units.entry(3) == (last, None)
        && units.image_of(last) == Some(None);
    if units.len() == 4 {
        units.forget_from(3);
    }
    knew && units.len() == 3 && units.image_of(last).is_none()
}

#[test]
fn units_go_on(rt: HostRuntime) -> Result<(), Fail> {
    let alloc = rt.alloc();
    rests_are_short();
    let mut units = units_with(alloc, &LIST)?;
    assert_eq!(rt; first_wrong(alloc, &mut units, &CASES)?, None);
    assert!(rt; units.holds(b"\0") && units.bears(b"\0\x01\0") && !units.bears(b"\0\0"));
    assert!(rt; unit_end(NINE) == Some(NINE.len()));
    assert!(rt; unit_message(alloc, b"\0\0").err() == Some(UnitStop::BadUnit));
    assert!(rt; unit_message(alloc, b"\x20\x01").err() == Some(UnitStop::BadUnit));
    assert!(rt; nine_with(alloc, &NEAR).ok() == Some((Some(168), 168)));
    assert!(rt; nine_with(alloc, &FAR).ok() == Some((None, 159)));
    assert_eq!(rt;
        expecting(alloc, &mut units, CASES[3].0, CASES[3])?,
        (true, true)
    );
    assert_eq!(rt;
        expecting(alloc, &mut units, NINE, CASES[3])?,
        (true, false)
    );
    assert!(rt; forgets_last(&mut units));
    Ok(())
}
