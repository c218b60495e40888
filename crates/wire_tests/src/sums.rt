use gate_base::Addr;
use inet_sum::{pseudo_sum, sum};
use std::test::Fail;

#[test]
fn sums_octets(rt: HostRuntime) -> Result<(), Fail> {
    assert!(rt; sum(b"") == 0xffff);
    assert!(rt; sum(b"\x01") == 0xfeff);
    let pangram =
        b"The quick brown fox jumps over the lazy dog. The quick brown fox jumps over it.";
    assert!(rt; sum(pangram) == 0xafa3);
    let segment = b"\x0f\xa0\x13\x88\x00\x0a\x00\x00hi";
    assert!(rt; pseudo_sum(Addr(0x0a00_0005), Addr(0xc0a8_c801), 17, segment) == 0xe199);
    Ok(())
}
