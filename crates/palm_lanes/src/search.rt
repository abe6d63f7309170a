// Key search in lanes. Each answer is of the first `len` keys alone, whatever stands behind them.
ghost use Rattle.std.specs.Prelude.{◌≡◌, ◌≤◌, ◌<◌, ◌+◌, ◌*◌, ◌%◌, ◌^◌, ◌==◌};
ghost use Rattle.std.specs.Prelude.{nat_le, count_by, take, length, slice_get, position, Some, IfSome, IfNone};
ghost use Rattle.std.specs.Prelude.{Contains};
ghost use Rattle.palm_lanes.specs.Bits.{bits_where};

use std::simd::u64x8;

/// The number of keys that a node has room for: two vectors of eight lanes.
pub const KEY_ROOM: usize = 16;

// The number of keys that one vector holds.
const LANES: usize = 8;

// Which of eight keys are at most `key`, as bits: the lowest is that of the first key.
fn at_most_bits(keys: &[u64], key: u64) -> u64
    requires { length keys.now ≡ LANES }
    ensures bits { result ≡ bits_where (λ k. nat_le k key) keys.now }
    ensures bound { result < 2 ^ LANES }
{
    u64x8::from_slice(keys)
        .simd_le(u64x8::splat(key))
        .to_bitmask()
}

// Which of eight keys are `key`, as bits.
fn equal_bits(keys: &[u64], key: u64) -> u64
    requires { length keys.now ≡ LANES }
    ensures bits { result ≡ bits_where (λ k. k == key) keys.now }
    ensures bound { result < 2 ^ LANES }
{
    u64x8::from_slice(keys)
        .simd_eq(u64x8::splat(key))
        .to_bitmask()
}

// The bits of the first `len` places, from those of the first eight and of the next eight. Whatever the other places
// hold, their bits are 0.
fn joined(low: u64, high: u64, len: usize) -> u64
    requires low_bits { low < 2 ^ LANES }
    requires high_bits { high < 2 ^ LANES }
    requires len { len ≤ KEY_ROOM }
    ensures { result ≡ (low + 2 ^ LANES * high) % 2 ^ len }
{
    (low + (high << LANES)) % (1 << len)
}

/// How many of the first `len` keys are at most `key`. The keys may stand in any order, and what the other places hold
/// doesn't matter. It takes no memory.
pub fn count_at_most(keys: &[u64; KEY_ROOM], len: usize, key: u64) -> usize
    requires { len ≤ KEY_ROOM }
    ensures { result ≡ count_by (λ k. nat_le k key) (take len keys.now) }
{
    let low = at_most_bits(&keys[..LANES], key);
    let high = at_most_bits(&keys[LANES..], key);
    joined(low, high, len).count_ones() as usize
}

// The places of `key` among the first `len` keys, as bits.
fn places_of(keys: &[u64; KEY_ROOM], len: usize, key: u64) -> u64
    requires { len ≤ KEY_ROOM }
    ensures { result ≡ bits_where (λ k. k == key) (take len keys.now) }
{
    let low = equal_bits(&keys[..LANES], key);
    let high = equal_bits(&keys[LANES..], key);
    joined(low, high, len)
}

/// The place of `key` among the first `len` keys, counted from 0, and the first such place where it stands there more
/// than once. `None` exactly where it isn't among them. What the other places hold doesn't matter. It takes no memory.
pub fn find(keys: &[u64; KEY_ROOM], len: usize, key: u64) -> Option<usize>
    requires { len ≤ KEY_ROOM }
    ensures found { IfSome result (λ i. slice_get (take len keys.now) i ≡ Some key) }
    ensures none { IfNone result (¬ Contains (take len keys.now) key) }
    ensures first { result ≡ position (λ k. k == key) (take len keys.now) }
{
    let places = places_of(keys, len, key);
    if places == 0 {
        None
    } else {
        Some(places.trailing_zeros() as usize)
    }
}
