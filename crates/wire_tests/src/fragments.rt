use frag_join::{Joiner, Taken};
use gate_base::{Event, LONGEST_DATAGRAM, Link, Moment, SECOND, Side, put_u16};
use inet_sum::sum;
use std::alloc::{AllocError, Global};
use std::test::Fail;
use verdicts::Refusal;

/// The last fragment of a datagram.
const LAST: &[u8; 22] = b"\x45\0\0\x16\0\x01\0\x01\x40\x11\xe8\x26\x0a\0\0\x05\xc0\xa8\xc8\x01hi";

/// The same with another last octet.
const OTHER: &[u8; 22] = b"\x45\0\0\x16\0\x01\0\x01\x40\x11\xe8\x26\x0a\0\0\x05\xc0\xa8\xc8\x01hh";

/// The first.
const FRONT: &[u8; 28] =
    b"\x45\0\0\x1c\0\x01\x20\0\x40\x11\xc8\x21\x0a\0\0\x05\xc0\xa8\xc8\x01\x0f\xa0\x13\x88\0\x0a\xe1\x99";

/// The datagram.
const JOINED: &[u8; 30] =
    b"\x45\0\0\x1e\0\x01\0\0\x40\x11\xe8\x1f\x0a\0\0\x05\xc0\xa8\xc8\x01\x0f\xa0\x13\x88\0\x0a\xe1\x99hi";

/// A datagram of four units.
const FOUR: &[u8; 52] =
    b"E\0\0\x34\0\x07\0\0@\x11\xe8\x03\x0a\0\0\x05\xc0\xa8\xc8\x01\x01\x01\x01\x01\x01\x01\x01\x01\x02\x02\x02\x02\x02\x02\x02\x02\x03\x03\x03\x03\x03\x03\x03\x03\x04\x04\x04\x04\x04\x04\x04\x04";

/// Every order of four.
const ORDERS: [[u8; 4]; 24] = [
    [0, 1, 2, 3],
    [0, 1, 3, 2],
    [0, 2, 1, 3],
    [0, 2, 3, 1],
    [0, 3, 1, 2],
    [0, 3, 2, 1],
    [1, 0, 2, 3],
    [1, 0, 3, 2],
    [1, 2, 0, 3],
    [1, 2, 3, 0],
    [1, 3, 0, 2],
    [1, 3, 2, 0],
    [2, 0, 1, 3],
    [2, 0, 3, 1],
    [2, 1, 0, 3],
    [2, 1, 3, 0],
    [2, 3, 0, 1],
    [2, 3, 1, 0],
    [3, 0, 1, 2],
    [3, 0, 2, 1],
    [3, 1, 0, 2],
    [3, 1, 2, 0],
    [3, 2, 0, 1],
    [3, 2, 1, 0],
];

/// Octets of the first fragment's header, with another total length, identification, flags and offset.
fn seal(octets: &mut [u8], identification: u16, place: u16) {
    if octets.len() < 20 || octets.len() > LONGEST_DATAGRAM {
        return;
    }
    let total = octets.len() as u16;
    let head = &mut octets[..20];
    head.copy_from_slice(&LAST[..20]);
    put_u16(head, 2, total);
    put_u16(head, 4, identification);
    put_u16(head, 6, place);
    put_u16(head, 10, 0);
    let checksum = sum(head);
    put_u16(head, 10, checksum);
}

/// A datagram of 8 octets, which are all this number, with this identification, flags and offset.
fn unit(identification: u16, place: u16, octet: u8) -> [u8; 28] {
    let mut octets = [octet; 28];
    seal(&mut octets, identification, place);
    octets
}

/// The fragment of the datagram of four units that is the unit with this number, from 0 to 3.
fn quarter(number: u8) -> [u8; 28] {
    let more = if number < 3 { 0x2000 } else { 0 };
    unit(7, more + u16::from(number), number % 4 + 1)
}

fn event(nanoseconds: u64, octets: &[u8]) -> Event<'_> {
    Event {
        side: Side::Left,
        moment: Moment(nanoseconds),
        link: Link::Raw,
        whole: true,
        octets,
    }
}

/// What becomes of a frame, in a word.
fn take(joiner: &mut Joiner, nanoseconds: u64, octets: &[u8]) -> &'static str {
    match joiner.take(&event(nanoseconds, octets)) {
        Taken::Plain => "plain",
        Taken::Held => "held",
        Taken::Joined => "joined",
        Taken::Refused(refusal) => refusal.name(),
    }
}

/// Whether a frame completes this datagram.
fn joins(joiner: &mut Joiner, nanoseconds: u64, octets: &[u8], datagram: &[u8]) -> bool {
    match joiner.take(&event(nanoseconds, octets)) {
        Taken::Joined => joiner.event().octets == datagram
            && joiner.event().moment.0 == nanoseconds,
        _ => false,
    }
}

#[test]
fn two_fragments(rt: HostRuntime) -> Result<(), Fail> {
    let Ok(mut joiner) = Joiner::new(rt.alloc()) else {
        assert!(rt; false, "joiner");
        return Ok(());
    };
    let joiner = &mut joiner;
    assert!(rt; take(joiner, SECOND, LAST) == "held" && joiner.len() == 1);
    assert!(rt; joins(joiner, 2 * SECOND, FRONT, JOINED) && joiner.len() == 0);
    assert!(rt; take(joiner, 2 * SECOND, JOINED) == "plain");

    // The first is dropped after 30 seconds, and joins once it comes again.
    assert!(rt; take(joiner, 10 * SECOND, LAST) == "held");
    assert!(rt; take(joiner, 40 * SECOND, FRONT) == "held" && joiner.len() == 1);
    assert!(rt; joins(joiner, 70 * SECOND - 1, LAST, JOINED));

    // Other octets at a place that is held are refused, and change nothing.
    assert!(rt; take(joiner, 80 * SECOND, LAST) == "held");
    assert!(rt; take(joiner, 80 * SECOND, OTHER) == "BadFragment");
    assert!(rt; joins(joiner, 81 * SECOND, FRONT, JOINED));
    Ok(())
}

#[test]
fn orders_of_four(rt: HostRuntime) -> Result<(), Fail> {
    let Ok(mut joiner) = Joiner::new(rt.alloc()) else {
        assert!(rt; false, "joiner");
        return Ok(());
    };
    for [first, second, third, last] in ORDERS {
        assert!(rt; take(&mut joiner, SECOND, &quarter(first)) == "held");
        assert!(rt; take(&mut joiner, SECOND, &quarter(second)) == "held");
        assert!(rt; take(&mut joiner, SECOND, &quarter(first)) == "held");
        assert!(rt; take(&mut joiner, SECOND, &quarter(third)) == "held");
        assert!(rt; joins(&mut joiner, SECOND, &quarter(last), FOUR));
    }
    Ok(())
}

#[test]
fn as_many_as_may_be(rt: HostRuntime) -> Result<(), Fail> {
    let Ok(mut joiner) = Joiner::new(rt.alloc()) else {
        assert!(rt; false, "joiner");
        return Ok(());
    };
    for identification in 0..64 {
        assert!(rt; take(&mut joiner, SECOND, &unit(identification, 0x2000, 5)) == "held");
    }
    assert!(rt; take(&mut joiner, SECOND, &unit(64, 0x2000, 5)) == "FragmentsFull");
    for identification in 0..64 {
        let mut datagram = [5; 36];
        seal(&mut datagram, identification, 0);
        assert!(rt; joins(&mut joiner, SECOND, &unit(identification, 1, 5), &datagram));
    }
    assert!(rt; joiner.len() == 0);
    Ok(())
}

fn filled(alloc: Global, count: usize) -> Result<Vec<u8>, AllocError> {
    vec![in alloc; 9; count]
}

#[test]
fn longest_datagram(rt: HostRuntime) -> Result<(), AllocError> {
    let Ok(mut joiner) = Joiner::new(rt.alloc()) else {
        assert!(rt; false, "joiner");
        return Ok(());
    };
    let mut front = filled(rt.alloc(), 20 + 65_512)?;
    seal(&mut front, 1, 0x2000);
    let mut datagram = filled(rt.alloc(), LONGEST_DATAGRAM)?;
    seal(&mut datagram, 1, 0);
    let mut last = [9; 23];
    seal(&mut last, 1, 8_189);
    assert!(rt; take(&mut joiner, 1, &last) == "held");
    assert!(rt; joins(&mut joiner, 2, &front, &datagram));

    let mut past = [9; 24];
    seal(&mut past, 1, 8_189);
    assert!(rt; take(&mut joiner, 1, &past) == "BadFragment");
    Ok(())
}
