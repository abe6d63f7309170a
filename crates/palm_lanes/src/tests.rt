// Searches among no, some and all of sixteen keys, in rising order and in others.
ghost use Rattle.std.specs.Prelude.{◌≤◌};

use super::*;
use std::process::Abort;
use std::test::Fail;

// Sixteen keys: the first `len` are 10, 20, 30 .., and all others `rest`.
fn rising(len: usize, rest: u64) -> [u64; KEY_ROOM]
    requires { len ≤ KEY_ROOM }
{
    let mut keys = [rest; KEY_ROOM];
    for place in 0..len {
        keys[place] = 10 * (place as u64 + 1);
    }
    keys
}

// Where a key stands among the first `len` of 10, 20, 30 ...
fn expected_place(len: usize, key: u64) -> Option<usize> {
    let after = (key / 10) as usize;
    if key % 10 == 0 && after >= 1 && after <= len {
        Some(after - 1)
    } else {
        None
    }
}

// Below all keys, at the first, in the middle, at the last of one vector and the first of the next, at the last of all,
// between two, and above all.
const PROBES: [u64; 12] = [0, 5, 10, 11, 40, 80, 85, 90, 159, 160, 161, u64::MAX];

// Searches for each probe among the first `len` keys.
fn search_for_probes(rt: &impl Abort, len: usize)
    requires { len ≤ KEY_ROOM }
{
    for key in PROBES {
        // the places past `len` hold the key itself, which must not be seen
        let keys = rising(len, key);
        assert_eq!(rt; find(&keys, len, key), expected_place(len, key));
        assert_eq!(rt;
            count_at_most(&keys, len, key),
            len.min((key / 10) as usize)
        );
    }
}

#[test]
fn rising_keys_are_found_and_counted(rt: HostRuntime) -> Result<(), Fail> {
    for len in [0usize, 1, 7, 8, 9, 15, 16] {
        search_for_probes(&rt, len);
    }
    Ok(())
}

#[test]
fn keys_in_any_order_are_found_and_counted(rt: HostRuntime) -> Result<(), Fail> {
    let keys = [
        160, 150, 140, 130, 120, 110, 100, 90, 80, 70, 60, 50, 40, 30, 20, 10,
    ];
    assert_eq!(rt; count_at_most(&keys, 16, 85), 8);
    assert_eq!(rt; count_at_most(&keys, 9, 85), 1);
    assert_eq!(rt; count_at_most(&keys, 8, 85), 0);
    assert_eq!(rt; count_at_most(&keys, 9, 100), 3);
    assert_eq!(rt; count_at_most(&keys, 15, 10), 0);
    assert_eq!(rt; count_at_most(&keys, 16, 10), 1);
    assert_eq!(rt; find(&keys, 16, 60), Some(10));
    let same = [7; KEY_ROOM];
    assert_eq!(rt; find(&same, 16, 7), Some(0));
    assert_eq!(rt; find(&same, 0, 7), None);
    assert_eq!(rt; count_at_most(&same, 11, 7), 11);
    Ok(())
}

#[test]
fn keys_are_unsigned_up_to_the_greatest(rt: HostRuntime) -> Result<(), Fail> {
    let half = 1 << 63;
    let mut keys = [u64::MAX; KEY_ROOM];
    keys[0] = 0;
    for place in 1..15 {
        keys[place] = half - 8 + place as u64;
    }
    assert_eq!(rt; find(&keys, 16, 0), Some(0));
    assert_eq!(rt; find(&keys, 16, half), Some(8));
    assert_eq!(rt; find(&keys, 16, u64::MAX), Some(15));
    assert_eq!(rt; find(&keys, 15, u64::MAX), None);
    assert_eq!(rt; count_at_most(&keys, 16, 0), 1);
    assert_eq!(rt; count_at_most(&keys, 16, half - 1), 8);
    assert_eq!(rt; count_at_most(&keys, 16, half), 9);
    assert_eq!(rt; count_at_most(&keys, 15, u64::MAX), 15);
    assert_eq!(rt; count_at_most(&keys, 16, u64::MAX), 16);
    Ok(())
}
