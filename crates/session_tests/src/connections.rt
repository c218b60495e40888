use expiring_table::Seed;
use gate_base::{Addr, Moment, SECOND, Side};
use std::test::Fail;
use tcp_tracker::{ConnKey, Tracker};

const KEY: ConnKey = ConnKey {
    left: Addr(0x0a00_0005),
    left_port: 4000,
    right: Addr(0x0a00_0005),
    right_port: 80,
};

const FIN: u8 = 1;

const SYN: u8 = 2;

const RST: u8 = 4;

const ACK: u8 = 16;

// A segment passes at a second. Answers for how many seconds the connection is then held.
fn pass(tracker: &mut Tracker, from: Side, flags: u8, session: Option<usize>, at: u32) -> u64 {
    let hold = tracker.timeout_of(&KEY, from, flags);
    if tracker.len() < 65_536 {
        tracker.note(KEY, from, flags, session, Moment(u64::from(at) * SECOND));
    }
    hold / SECOND
}

// The session of a connection that is over at a moment, which is taken out; None where all live.
fn ended_at(tracker: &mut Tracker, now: u64) -> Option<Option<usize>> {
    tracker.next_ended(Moment(now)).map(|ended| ended.session)
}

#[test]
fn connections_end(rt: HostRuntime) -> Result<(), Fail> {
    let Ok(mut tracker) = Tracker::new(rt.alloc(), Seed::from_number(1)) else {
        assert!(rt; false, "tracker");
        return Ok(());
    };
    // An RST makes no connection, and a SYN from each side doesn't establish one.
    assert!(rt; pass(&mut tracker, Side::Left, RST, None, 1) == 240 && tracker.len() == 0);
    assert!(rt; pass(&mut tracker, Side::Left, SYN, None, 1) == 240);
    assert!(rt; pass(&mut tracker, Side::Right, SYN + ACK, None, 2) == 240);
    assert!(rt; pass(&mut tracker, Side::Left, ACK, None, 3) == 7440);
    assert!(rt; ended_at(&mut tracker, 7443 * SECOND - 1).is_none() && tracker.len() == 1);
    assert!(rt; ended_at(&mut tracker, 7443 * SECOND) == Some(None) && tracker.len() == 0);

    // A SYN alone, in a session.
    assert!(rt; pass(&mut tracker, Side::Left, SYN, Some(7), 1) == 240);
    assert!(rt; ended_at(&mut tracker, 241 * SECOND - 1).is_none() && tracker.len() == 1);
    assert!(rt; ended_at(&mut tracker, 241 * SECOND) == Some(Some(7)) && tracker.len() == 0);

    // A FIN closes, a SYN starts anew, and an RST removes.
    assert!(rt; pass(&mut tracker, Side::Left, ACK, None, 300) == 240);
    assert!(rt; pass(&mut tracker, Side::Right, ACK, None, 300) == 7440);
    assert!(rt; pass(&mut tracker, Side::Right, ACK + FIN, None, 301) == 240);
    assert!(rt; tracker.find(&KEY).map(|found| found.closing) == Some(true));
    assert!(rt; pass(&mut tracker, Side::Right, SYN, None, 302) == 240);
    assert!(rt; tracker.find(&KEY).map(|found| found.closing) == Some(false));
    assert!(rt; pass(&mut tracker, Side::Left, RST, None, 303) == 240 && tracker.len() == 0);
    Ok(())
}
