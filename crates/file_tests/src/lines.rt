use gate_base::{Moment, SECOND, Side};
use gate_report::{Line, LineRoom, Totals};
use gate_settings::ReportForm;
use std::test::Fail;
use verdicts::{Refusal, Verdict};

const PASSED: Line = Line::Event {
    number: 1,
    side: Side::Left,
    moment: Moment(SECOND),
    verdict: Verdict::Pass,
    frames: 1,
};

const REFUSED: Line = Line::Event {
    number: 20,
    side: Side::Right,
    moment: Moment(0),
    verdict: Verdict::Refused(Refusal::InnerUnbound),
    frames: 0,
};

const HELD: Line = Line::Event {
    number: 1,
    side: Side::Left,
    moment: Moment(SECOND),
    verdict: Verdict::Held,
    frames: 0,
};

const LARGEST: Line = Line::Event {
    number: u64::MAX,
    side: Side::Right,
    moment: Moment(u64::MAX),
    verdict: Verdict::Refused(Refusal::SessionsFull),
    frames: u32::MAX,
};

const DONE: Line = Line::Done {
    totals: Totals {
        events: 1,
        passed: 1,
        refused: 0,
        to_left: 0,
        to_right: 1,
    },
    pending: 0,
};

const DONE_LARGEST: Line = Line::Done {
    totals: Totals {
        events: u64::MAX,
        passed: u64::MAX - 1,
        refused: u64::MAX - 2,
        to_left: u64::MAX - 3,
        to_right: u64::MAX - 4,
    },
    pending: u64::MAX - 5,
};

/// Lines, what they are in text, and what they are in JSON.
const LINES: [(Line, &[u8], &[u8]); 6] = [
    (
        PASSED,
        b"1 left 1000000000 pass 1\n",
        b"{\"event\":1,\"frames\":1,\"moment\":1000000000,\"side\":\"left\",\"verdict\":\"pass\"}\n",
    ),
    (
        REFUSED,
        b"20 right 0 InnerUnbound 0\n",
        b"{\"event\":20,\"frames\":0,\"moment\":0,\"side\":\"right\",\"verdict\":\"InnerUnbound\"}\n",
    ),
    (
        HELD,
        b"1 left 1000000000 held 0\n",
        b"{\"event\":1,\"frames\":0,\"moment\":1000000000,\"side\":\"left\",\"verdict\":\"held\"}\n",
    ),
    (
        LARGEST,
        b"18446744073709551615 right 18446744073709551615 SessionsFull 4294967295\n",
        b"{\"event\":18446744073709551615,\"frames\":4294967295,\"moment\":18446744073709551615,\"side\":\"right\",\"verdict\":\"SessionsFull\"}\n",
    ),
    (
        DONE,
        b"done events=1 passed=1 refused=0 to_left=0 to_right=1 pending=0\n",
        b"{\"done\":true,\"events\":1,\"passed\":1,\"pending\":0,\"refused\":0,\"to_left\":0,\"to_right\":1}\n",
    ),
    (
        DONE_LARGEST,
        b"done events=18446744073709551615 passed=18446744073709551614 refused=18446744073709551613 to_left=18446744073709551612 to_right=18446744073709551611 pending=18446744073709551610\n",
        b"{\"done\":true,\"events\":18446744073709551615,\"passed\":18446744073709551614,\"pending\":18446744073709551610,\"refused\":18446744073709551613,\"to_left\":18446744073709551612,\"to_right\":18446744073709551611}\n",
    ),
];

#[test]
fn writes_lines(rt: HostRuntime) -> Result<(), Fail> {
    for (line, text, json) in LINES {
        let mut room = LineRoom::new(rt.alloc());
        assert!(rt; room.line(ReportForm::Text, &line)? == text);
        assert!(rt; room.line(ReportForm::Json, &line)? == json);
    }
    Ok(())
}

#[test]
fn counts_events(rt: HostRuntime) -> Result<(), Fail> {
    let none = Totals {
        events: 0,
        passed: 0,
        refused: 0,
        to_left: 0,
        to_right: 0,
    };
    let one = none.count(Side::Left, Verdict::Pass, 1);
    assert!(rt; one.last_line(0) == DONE);
    let two = one.count(Side::Right, Verdict::Held, 0);
    assert!(rt; two == Totals { events: 2, ..one });
    Ok(())
}
