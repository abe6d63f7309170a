// Whether an edit of its batch could change what a look-up is answered.
ghost use Rattle.std.specs.Prelude.{◌≡◌, ◌≤◌, max, MatchBool, length, All, IsSorted};
ghost use Rattle.std.specs.Ordering.{nat_cmp};
ghost use Rattle.palm_base.specs.Key.{key};
ghost use Rattle.palm_base.specs.LookUps.{digits_hit, IsFrontKey, IsBetween, RatesDigits};
ghost use Rattle.palm_base.specs.Prefix.{IsPrefix};
ghost use Rattle.palm_look.specs.Met.{HasOne, HasNone, MattersTo, last_listed, last_replied};

use palm_base::{Call, Digits, Limit, Reply, RowList};

// Whether a key is among sorted ones.
fn has_key(keys: &[u64], key: u64) -> bool
    requires sorted { IsSorted nat_cmp keys.now }
    ensures { MatchBool result (HasOne (λ k. k ≡ key) keys.now) (HasNone (λ k. k ≡ key) keys.now) }
{
    keys.binary_search(&key).is_ok()
}

// Whether one of sorted keys lies from a key to another, both included.
fn has_between(keys: &[u64], from: u64, to: u64) -> bool
    requires sorted { IsSorted nat_cmp keys.now }
    ensures { MatchBool result (HasOne (IsBetween from to) keys.now) (HasNone (IsBetween from to) keys.now) }
{
    let begin = keys.partition_point(|key| *key < from);
    begin < keys.len() && keys[begin] <= to
}

// Whether one of sorted keys is that of a front of the number with `least` digits or more, looked for front by front.
fn has_front_from(keys: &[u64], number: &Digits, least: u32) -> bool
    requires sorted { IsSorted nat_cmp keys.now }
    requires some { 1 ≤ least }
    ensures { MatchBool result (HasOne (IsFrontKey least number.now) keys.now)
        (HasNone (IsFrontKey least number.now) keys.now) }
{
    for digits in least..=number.len() {
        if has_key(keys, number.front(digits).key()) {
            return true;
        }
    }
    false
}

// The same. Only where there are keys in the range that the keys of these fronts lie in are the fronts looked for
// one by one.
fn has_front(keys: &[u64], number: &Digits, least: u32) -> bool
    requires sorted { IsSorted nat_cmp keys.now }
    requires some { 1 ≤ least }
    ensures front { MatchBool result (HasOne (IsFrontKey least number.now) keys.now)
        (HasNone (IsFrontKey least number.now) keys.now) }
    ensures prefix { IsPrefix number.now }
{
    if least > number.len() {
        return false;
    }
    if !has_between(keys, number.front(least).key(), number.key()) {
        return false;
    }
    has_front_from(keys, number, least)
}

// How many digits the row of a Hit has, and 1 for another reply.
fn digits_hit(reply: &Reply) -> u32
    ensures { result ≡ max 1 (digits_hit reply.now) }
{
    match reply {
        Reply::Hit(row) => row.prefix.len(),
        _ => 1,
    }
}

// The last key that matters to a List by its rows: that of the row at which it reached its limit, and else that of
// its last prefix.
fn last_listed(to: &Digits, limit: Limit, rows: &RowList) -> u64
    ensures { result ≡ last_listed (key to.now) limit rows.now }
{
    let limit = limit.get() as usize;
    if rows.len() < limit {
        return to.key();
    }
    rows.get(limit - 1).prefix.key()
}

// The same by its reply.
fn last_replied(to: &Digits, limit: Limit, reply: &Reply) -> u64
    ensures { result ≡ last_replied (key to.now) limit reply.now }
{
    match reply {
        Reply::Rows(rows) => last_listed(to, limit, rows),
        _ => to.key(),
    }
}

/// Whether one of the sorted keys matters to the reply to a call, so that an edit at it could change the reply.
pub(crate) fn is_met(keys: &[u64], call: &Call, reply: &Reply) -> bool
    requires sorted { IsSorted nat_cmp keys.now }
    ensures met { MatchBool result (HasOne (MattersTo call.now reply.now) keys.now)
        (HasNone (MattersTo call.now reply.now) keys.now) }
    ensures digits { RatesDigits call.now }
{
    match call {
        Call::Set { prefix, .. } | Call::Del { prefix } | Call::Get { prefix } => {
            has_key(keys, prefix.key())
        }
        Call::Rate { number } => has_front(keys, number, digits_hit(reply)),
        Call::List { from, to, limit } => {
            has_between(keys, from.key(), last_replied(to, *limit, reply))
        }
    }
}
