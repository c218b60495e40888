use ether_frames::{EtherView, put_head};
use std::test::Fail;

#[test]
fn reads_and_writes_frames(rt: HostRuntime) -> Result<(), Fail> {
    let mut frame = [0x55u8; 16];
    put_head(
        &[2, 0, 0x5e, 0x10, 0, 2],
        &[2, 0, 0x5e, 0x10, 0, 1],
        &mut frame,
    );
    assert!(rt; frame == *b"\x02\0\x5e\x10\0\x02\x02\0\x5e\x10\0\x01\x08\0\x55\x55");
    match EtherView::of(&frame) {
        Some(view) => {
            assert!(rt; view.kind() == 0x0800 && view.payload() == b"\x55\x55".as_slice());
        }
        None => assert!(rt; false),
    }
    assert!(rt; EtherView::of(&frame[..13]).is_none());
    Ok(())
}
