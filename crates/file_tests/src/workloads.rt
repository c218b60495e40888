use gate_workload::{Workload, make};
use inet_sum::sum;
use std::test::Fail;

/// The lengths of both captures, and the checksums of all their octets.
fn outline(workload: &Workload) -> (usize, usize, u16, u16) {
    let (left, right) = (workload.left.items(), workload.right.items());
    (left.len(), right.len(), sum(left), sum(right))
}

#[test]
fn makes_workloads(rt: HostRuntime) -> Result<(), Fail> {
    let one = make(rt.alloc(), 1, 1)?;
    assert!(rt; outline(&one) == (217, 148, 0x5fef, 0x77eb));
    assert!(rt; one.settings.items().len() == 374);
    assert!(rt;
        one.left.items().get(24..84)
            == Some(b"\xe8\x03\0\0\0\0\0\0\x2c\0\0\0\x2c\0\0\0\
            \x45\0\0\x2c\0\0\x40\0\x40\x06\xa8\x1d\x0a\0\0\x05\xc0\xa8\xc8\x01\
            \x9c\x40\0\x15\0\0\x03\xe8\0\0\0\0\x60\x02\x20\0\x45\x3a\0\0\x02\x04\x05\xb4"
                .as_slice())
    );

    // All four kinds of rounds.
    let forty = make(rt.alloc(), 1, 40)?;
    assert!(rt; outline(&forty) == (2244, 2152, 0xc695, 0x5cc7));
    let twelve = make(rt.alloc(), 7, 12)?;
    assert!(rt; outline(&twelve) == (662, 676, 0x26d0, 0x24dd));
    Ok(())
}
