use gate_base::Host;
use std::test::Fail;
use stream_model::{
    Arrival, Extent, Offset, number_after, number_at, place_acknowledged, place_near, refusal,
    start_at,
};
use tcp_segments::Flags;
use verdicts::Refusal;

/// Initial numbers, places and numbers, and how far before the place or after it the number's place lies.
const PLACES: [(u32, u64, u32, u64, u64); 6] = [
    (1000, 0, 1001, 0, 0),
    (1000, 0, 990, 11, 0),
    (1000, 0, 2_147_484_648, 0, 2_147_483_647),
    (1000, 0, 2_147_484_649, 2_147_483_648, 0),
    (4_294_967_293, 19, 17, 0, 0),
    (4_294_967_293, 19, 4_294_967_294, 19, 0),
];

const ACK: Flags = Flags {
    fin: false,
    syn: false,
    reset: false,
    push: false,
    ack: true,
    ecn: 0,
};

/// A host that has sent 19 octets, of whose image 21 are due, and one that has sent none.
const CLIENT: Extent = Extent {
    initial: Some(1000),
    octets: 19,
    due: 21,
    ended: false,
    recent: 19,
};

const SERVER: Extent = Extent {
    initial: Some(5000),
    octets: 0,
    due: 0,
    ended: false,
    recent: 0,
};

#[test]
fn segments_are_judged(rt: HostRuntime) -> Result<(), Fail> {
    for (initial, place, number, before, after) in PLACES {
        let near = place_near(initial, place, number);
        assert!(rt; near == Offset { before, after }, "{number}");
    }
    assert!(rt; number_after(4_294_967_293, 21) == 18);
    assert!(rt; number_at(1000, 0) == 1001);
    let acknowledging = Arrival {
        sequence: 5001,
        acknowledgement: 1022,
        flags: ACK,
        count: 0,
    };
    assert!(rt; refusal(Host::Server, SERVER, CLIENT, acknowledging, false) == None);
    assert!(rt; place_acknowledged(CLIENT, acknowledging) == 21);
    assert!(rt;
        start_at(SERVER, acknowledging)
            == Offset {
                before: 0,
                after: 0
            }
    );
    let ahead = Arrival {
        acknowledgement: 1023,
        ..acknowledging
    };
    assert!(rt; refusal(Host::Server, SERVER, CLIENT, ahead, false) == Some(Refusal::AckAhead));
    Ok(())
}
