// A leaf: up to `MOST_LEAF_ROWS` rows in the order of their keys. Here is the one of 1 at 12, 10 at 15 and 2 at 9:
//
//     keys            0x1000000000000001 | 0x1000000000000002 | 0x2000000000000001 | -  ..  -     128 bytes
//     rates           12                 | 15                 | 9                  | -  ..  -     128 bytes
//     how many rates  3                                                                             8 bytes
//
// It is 264 bytes wide. The keys stand side by side in words, so that a look-up compares eight of them at once
// where they are, and as many of them count as there are rates. A row's prefix is made of its key again, at no
// cost.
ghost use Rattle.std.specs.Prelude.{◌≡◌, ◌≤◌, ◌<◌, ◌==◌, ◌+◌, ◌++◌, length, take};
ghost use Rattle.std.specs.Prelude.{slice_get, Some, OnOk, OnErr, vec_len, vec_capacity};
ghost use Rattle.std.specs.List.{AllByRecursion};
ghost use Rattle.arrayvec.specs.ArrayVec.{array_vec_len};
ghost use Rattle.palm_base.specs.Key.{IsKey};
ghost use Rattle.palm_base.specs.Table.{IsTable, put, rate_at};
ghost use Rattle.palm_node.specs.LeafRows.{HoldsRows, IsLeaf, opened, rows_of};

use arrayvec::ArrayVec;
use palm_base::{Amount, Digits, MOST_LEAF_ROWS, NoMemory, Row};
use palm_lanes::{count_at_most, find};
use std::marker::Model;

/// A leaf: at most `MOST_LEAF_ROWS` rows, whose keys strictly rise. Contracts see the list of rows.
///
/// It has room for all of them from the start, so no call on it takes memory.
#[derive(Debug, Drop)]
pub struct Leaf {
    keys: [u64; MOST_LEAF_ROWS],
    rates: ArrayVec<Amount, MOST_LEAF_ROWS>,
}

impl Model for Leaf {
    ghost use Rattle.std.specs.Prelude.{List};
    ghost use Rattle.palm_base.specs.declared.row.Row.{Row};
    ghost use Rattle.palm_node.specs.LeafRows.{rows_of, HoldsRows};

    ghost Value = { List Row };

    ghost view = { λ a. rows_of a.keys a.rates.items };

    ghost invariant = { λ a. HoldsRows a.keys a.rates.items };
}

// Puts rows in place of those that the keys and rates hold.
fn fill(
    keys: &mut [u64; MOST_LEAF_ROWS],
    rates: &mut ArrayVec<Amount, MOST_LEAF_ROWS>,
    rows: &[Row],
)
    requires { length rows.now ≤ MOST_LEAF_ROWS }
    ensures rows { rows_of keys.new rates.new.items ≡ rows.now }
    ensures prefixes { AllByRecursion IsKey (take (length rows.now) keys.new) }
    ensures width { length keys.new ≡ MOST_LEAF_ROWS }
    ensures len { array_vec_len rates.new ≡ length rows.now }
{
    rates.clear();
    for (i, row) in rows.iter().enumerate() {
        keys[i] = row.prefix.key();
        rates.push(row.rate);
    }
}

// Puts a key in at a place among the first `len`. Those from there on move up by one.
fn insert_key(keys: &mut [u64; MOST_LEAF_ROWS], place: usize, len: usize, key: u64)
    requires within { place ≤ len }
    requires room { len < MOST_LEAF_ROWS }
    ensures { keys.new ≡ opened keys.old place len key }
{
    keys.copy_within(place..len, place + 1);
    keys[place] = key;
}

// Puts a row in among those that the keys and rates hold, in place of the row with its key where there is one.
fn put_row(keys: &mut [u64; MOST_LEAF_ROWS], rates: &mut ArrayVec<Amount, MOST_LEAF_ROWS>, row: Row)
    requires held { HoldsRows keys.old rates.old.items }
    requires room { array_vec_len rates.old < MOST_LEAF_ROWS }
    ensures held { HoldsRows keys.new rates.new.items }
    ensures rows { rows_of keys.new rates.new.items ≡ put row (rows_of keys.old rates.old.items) }
    ensures no_fewer { array_vec_len rates.old ≤ array_vec_len rates.new }
    ensures few { array_vec_len rates.new ≤ array_vec_len rates.old + 1 }
{
    let key = row.prefix.key();
    let len = rates.len();
    match find(keys, len, key) {
        Some(place) => rates[place] = row.rate,
        None => {
            let place = count_at_most(keys, len, key);
            insert_key(keys, place, len, key);
            rates.insert(place, row.rate);
        }
    }
}

impl Leaf {
    /// The leaf of these rows. It takes no memory.
    pub fn from_rows(rows: &[Row]) -> Leaf
        requires few { length rows.now ≤ MOST_LEAF_ROWS }
        requires table { IsTable rows.now }
        ensures { result ≡ rows.now }
    {
        let mut keys = [0; MOST_LEAF_ROWS];
        let mut rates = ArrayVec::new();
        fill(&mut keys, &mut rates, rows);
        Leaf { keys, rates }
    }

    /// The same leaf once more.
    pub fn copy(&self) -> Leaf
        ensures { result ≡ self.now }
    {
        let mut rates = ArrayVec::new();
        rates.try_extend_from_slice(&self.rates).unwrap();
        Leaf {
            keys: self.keys,
            rates,
        }
    }

    /// The number of rows.
    pub fn len(&self) -> usize
        ensures len { result ≡ length self.now }
        ensures leaf { IsLeaf self.now }
    {
        self.rates.len()
    }

    /// Whether there is no row.
    pub fn is_empty(&self) -> bool
        ensures { result ≡ (length self.now == 0) }
    {
        self.rates.is_empty()
    }

    /// The row at a place, counted from 0.
    pub fn row(&self, i: usize) -> Row
        requires { i < length self.now }
        ensures { slice_get self.now i ≡ Some result }
    {
        let rate = self.rates[i];
        Row {
            prefix: Digits::of_key(self.keys[i]),
            rate,
        }
    }

    /// The rate of the row with this key. `None` exactly where no row has it.
    pub fn get(&self, key: u64) -> Option<Amount>
        ensures { result ≡ rate_at key self.now }
    {
        let place = find(&self.keys, self.rates.len(), key)?;
        Some(self.rates[place])
    }

    /// Appends the rows to a list that has room for them.
    pub fn append_rows_reserved(&self, rows: &mut Vec<Row>)
        requires { vec_len rows.old + length self.now ≤ vec_capacity rows.old }
        ensures rows { rows.new.items ≡ rows.old.items ++ self.now }
        ensures leaf { IsLeaf self.now }
        ensures capacity { vec_capacity rows.new ≡ vec_capacity rows.old }
    {
        for i in 0..self.len() {
            rows.push_reserved(self.row(i));
        }
    }

    /// Appends the rows to a list. Where room for them was refused it has the rows that it had.
    pub fn append_rows(&self, rows: &mut Vec<Row>) -> Result<(), NoMemory>
        ensures ok { OnOk result (rows.new.items ≡ rows.old.items ++ self.now) }
        ensures err { OnErr result (rows.new.items ≡ rows.old.items) }
    {
        rows.reserve(self.len())?;
        self.append_rows_reserved(rows);
        Ok(())
    }

    /// Puts a row in at the place of its key, in place of one with the same key where there is one. It takes no
    /// memory.
    pub fn put(&mut self, row: Row)
        requires { length self.old < MOST_LEAF_ROWS }
        ensures row { self.new ≡ put row self.old }
        ensures no_fewer { length self.old ≤ length self.new }
        ensures few { length self.new ≤ length self.old + 1 }
    {
        put_row(&mut self.keys, &mut self.rates, row);
    }

    /// Puts these rows in place of the leaf's. It takes no memory.
    pub fn set_pairs(&mut self, rows: &[Row])
        requires few { length rows.now ≤ MOST_LEAF_ROWS }
        requires table { IsTable rows.now }
        ensures { self.new ≡ rows.now }
    {
        fill(&mut self.keys, &mut self.rates, rows);
    }
}
