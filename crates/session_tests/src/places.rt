use shift_ledger::Ledger;
use std::test::Fail;

#[test]
fn answers_for_a_changed_unit(rt: HostRuntime) -> Result<(), Fail> {
    let mut ledger = Ledger::new(rt.alloc());
    let mut image = vec![in rt.alloc(); 7u8; 21]?;
    image[20] = 8;
    ledger.push_plain(10);
    assert!(rt; ledger.reserve(1).is_ok());
    assert!(rt; ledger.push_changed(19, image).is_ok());
    ledger.push_plain(6);
    assert!(rt; ledger.octets_in() == 35 && ledger.octets_out() == 37);
    assert!(rt; [9, 10, 28, 29].map(|p| ledger.fore(p)) == [9, 10, 10, 31]);
    assert!(rt; [10, 11, 29, 30].map(|e| ledger.rear(e)) == [10, 31, 31, 32]);
    assert!(rt; [10, 30, 31, 37].map(|q| ledger.back(q)) == [10, 10, 29, 35]);
    let mut target = Vec::with_capacity(rt.alloc(), 3)?;
    if target.is_empty() {
        ledger.copy(30, 33, 29, b"ab", &mut target);
    }
    assert!(rt; target.as_slice() == b"\x08ab".as_slice());
    ledger.acknowledge(30);
    assert!(rt; ledger.len() == 1);
    ledger.acknowledge(31);
    assert!(rt; ledger.len() == 0 && ledger.fore(29) == 31);
    Ok(())
}
