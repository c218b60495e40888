use compact_stream::back_acknowledged;
use shift_ledger::Ledger;
use std::test::Fail;

#[test]
fn acknowledged_octets(rt: HostRuntime) -> Result<(), Fail> {
    let mut ledger = Ledger::new(rt.alloc());
    ledger.push_plain(10);
    assert!(rt; back_acknowledged(&ledger, 3, 4) == 4);
    assert!(rt; back_acknowledged(&ledger, 0, 10) == 10);
    assert!(rt; back_acknowledged(&ledger, 0, 11) == 11);
    Ok(())
}
