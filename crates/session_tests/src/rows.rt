ghost use Rattle.std.specs.Prelude.{◌≡◌};

use expiring_table::{Row, Rows, Seed};
use std::test::Fail;

const MOST: usize = 8;

// Puts a row behind the others, or in the place of the one with its key.
fn put(rows: &mut Rows<u64>, key: u128, end: Option<u64>, value: u64)
    requires { rows.old.most ≡ 8 }
    ensures { rows.new.most ≡ 8 }
{
    let row = Row { key, end, value };
    if let Some((place, _)) = rows.locate(key) {
        rows.set_at(place, row);
    } else if rows.len() < MOST {
        rows.push(row);
    }
}

fn value(rows: &Rows<u64>, key: u128) -> Option<u64> {
    rows.find(key).map(|row| row.value)
}

// Takes out the rows that ended. Answers how many they were.
fn drop_ended(rows: &mut Rows<u64>, now: u64) -> u32
    ensures { rows.new.most ≡ rows.old.most }
{
    let mut gone = 0;
    for _ in 0..MOST {
        if rows.next_ended(now).is_some() {
            gone += 1;
        }
    }
    gone
}

// One key is put in and taken out many times. Answers how often it was there, and then not.
fn come_and_go(rows: &mut Rows<u64>, rounds: u64) -> u64
    requires { rows.old.most ≡ 8 }
    ensures { rows.new.most ≡ 8 }
{
    let mut good = 0;
    for round in 0..rounds {
        put(rows, 7, Some(round), round);
        let there = value(rows, 7) == Some(round);
        rows.remove(7);
        if there && value(rows, 7).is_none() {
            good += 1;
        }
    }
    good
}

// Rows come, and end three nanoseconds later. Answers how often three were there.
fn pass_by(rows: &mut Rows<u64>, rounds: u64) -> u64
    requires { rows.old.most ≡ 8 }
    ensures { rows.new.most ≡ 8 }
{
    let mut good = 0;
    for round in 0..rounds {
        drop_ended(rows, round);
        put(
            rows,
            u128::from(round),
            Some(round.saturating_add(3)),
            round,
        );
        if rows.len() == 3 {
            good += 1;
        }
    }
    good
}

#[test]
fn rows_come_and_go(rt: HostRuntime) -> Result<(), Fail> {
    let Ok(mut rows) = Rows::new(rt.alloc(), MOST, Seed::from_number(1)) else {
        assert!(rt; false, "rows");
        return Ok(());
    };
    assert!(rt; come_and_go(&mut rows, 2000) == 2000 && rows.len() == 0);
    assert!(rt; pass_by(&mut rows, 100) == 98);
    assert!(rt; drop_ended(&mut rows, 101) == 2 && value(&rows, 99) == Some(99));
    assert!(rt; drop_ended(&mut rows, 102) == 1 && rows.len() == 0);

    // An end that comes earlier, one that comes later, and none.
    put(&mut rows, 1, Some(200), 10);
    put(&mut rows, 2, Some(150), 20);
    put(&mut rows, 1, Some(140), 11);
    put(&mut rows, 2, Some(190), 21);
    put(&mut rows, 3, Some(130), 30);
    put(&mut rows, 3, None, 31);
    assert!(rt; drop_ended(&mut rows, 139) == 0 && rows.len() == 3);
    assert!(rt; drop_ended(&mut rows, 140) == 1 && value(&rows, 1).is_none());
    rows.reseed(Seed::from_number(2));
    assert!(rt; drop_ended(&mut rows, 189) == 0 && value(&rows, 2) == Some(21));
    assert!(rt; drop_ended(&mut rows, 190) == 1 && value(&rows, 3) == Some(31));
    assert!(rt; drop_ended(&mut rows, u64::MAX) == 0 && rows.len() == 1);
    Ok(())
}
