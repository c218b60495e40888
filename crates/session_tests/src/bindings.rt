// A pool of one address.
use binding_table::{Crossing, Table};
use expiring_table::Seed;
use gate_base::{Addr, Moment, SECOND, Side};
use settings_file::read_settings;
use std::test::Fail;

const SETTINGS: &[u8] = b"left.pool_first = \"192.168.200.1\"
left.pool_last = \"192.168.200.254\"
left.link = \"raw\"
right.pool_first = \"172.16.9.1\"
right.pool_last = \"172.16.9.1\"
right.link = \"raw\"
static = [{ side = \"right\", host = \"10.0.0.5\", alias = \"192.168.200.1\" }]
";

const FIRST_HOST: Addr = Addr(0x0a00_0005);

const SECOND_HOST: Addr = Addr(0x0a00_0006);

const ONLY_ALIAS: Addr = Addr(0xac10_0901);

const STATIC_ALIAS: Addr = Addr(0xc0a8_c801);

// How an address of the left realm crosses at a moment. A new host is then bound for 300 seconds.
fn use_at(table: &mut Table, now: u64, address: Addr) -> Crossing {
    table.expire(Moment(now));
    let crossing = table.cross(Side::Left, address);
    if let Crossing::New(_) = crossing {
        table.bind(
            Side::Left,
            address,
            Moment(now.saturating_add(300 * SECOND)),
        );
    }
    crossing
}

#[test]
fn pool_of_one(rt: HostRuntime) -> Result<(), Fail> {
    let Ok(settings) = read_settings(rt.alloc(), SETTINGS) else {
        assert!(rt; false, "settings");
        return Ok(());
    };
    let Ok(mut table) = Table::new(rt.alloc(), &settings, Seed::from_number(1)) else {
        assert!(rt; false, "table");
        return Ok(());
    };
    assert!(rt; use_at(&mut table, SECOND, FIRST_HOST) == Crossing::New(ONLY_ALIAS));
    assert!(rt; use_at(&mut table, 2 * SECOND, STATIC_ALIAS) == Crossing::Bound(FIRST_HOST));
    assert!(rt; use_at(&mut table, 2 * SECOND, SECOND_HOST) == Crossing::Empty);
    assert!(rt; use_at(&mut table, 301 * SECOND - 1, SECOND_HOST) == Crossing::Empty);
    assert!(rt; use_at(&mut table, 301 * SECOND, SECOND_HOST) == Crossing::New(ONLY_ALIAS));
    Ok(())
}
