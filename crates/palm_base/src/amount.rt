// Rates and limits: whole numbers within their bounds, so that a value of these types needs no further test.
ghost use Rattle.std.specs.Prelude.{◌≡◌, ◌≤◌, ◌&&◌, nat_le, if◌then◌else◌, Some, None};
ghost use Rattle.palm_base.specs.Numbers.{number_from_to};

use crate::number::number_from_to;
use std::marker::Model;

/// The greatest rate, in the user's unit.
pub const MOST_RATE: u64 = 999_999_999_999;

/// The greatest limit of a list, in rows.
pub const MOST_LIMIT: u32 = 1_000;

/// A rate: a whole number from 0 to `MOST_RATE`, in a unit that the user chooses. Contracts see the number.
#[derive(Clone, Copy, Debug, Default, PartialEq, Eq, PartialOrd, Ord, Hash)]
pub struct Amount {
    value: u64,
}

impl Model for Amount {
    ghost use Rattle.std.specs.Prelude.{ℕ, ◌≤◌};
    ghost use Rattle.palm_base.specs.declared.amount.TheConstants.{MOST_RATE};

    ghost Value = { ℕ };

    ghost view = { λ a. a.value };

    ghost invariant = { λ a. a.value ≤ MOST_RATE };

    ghost inverse = { λ n. record { value = n } };
}

impl Amount {
    /// The rate of this value in the user's unit. `None` exactly where it is above `MOST_RATE`.
    pub fn new(value: u64) -> Option<Amount>
        ensures { result ≡ (if nat_le value MOST_RATE then Some value else None) }
    {
        if value > MOST_RATE {
            return None;
        }
        Some(Amount { value })
    }

    /// The rate that a number field spells. `None` exactly where the text is no number field or its value is above
    /// `MOST_RATE`.
    pub fn read(field: &[u8]) -> Option<Amount>
        ensures { result ≡ number_from_to 0 MOST_RATE field.now }
    {
        Amount::new(number_from_to(field, 0, MOST_RATE)?)
    }

    /// The value, in the user's unit.
    pub fn get(&self) -> u64
        ensures value { result ≡ self.now }
        ensures most { result ≤ MOST_RATE }
    {
        self.value
    }
}

/// How many rows a list shows at most: 1 to `MOST_LIMIT`. Contracts see the number.
#[derive(Clone, Copy, Debug, PartialEq, Eq, PartialOrd, Ord, Hash)]
pub struct Limit {
    value: u32,
}

impl Model for Limit {
    ghost use Rattle.std.specs.Prelude.{ℕ, ◌≤◌};
    ghost use Rattle.palm_base.specs.declared.amount.TheConstants.{MOST_LIMIT};

    ghost Value = { ℕ };

    ghost view = { λ a. a.value };

    ghost invariant = { λ a. (1 ≤ a.value) × (a.value ≤ MOST_LIMIT) };

    ghost inverse = { λ n. record { value = n } };
}

impl Limit {
    /// The limit of this many rows. `None` exactly where that is 0 or above `MOST_LIMIT`.
    pub fn new(value: u32) -> Option<Limit>
        ensures { result ≡ (if nat_le 1 value && nat_le value MOST_LIMIT then Some value else None) }
    {
        if value == 0 || value > MOST_LIMIT {
            return None;
        }
        Some(Limit { value })
    }

    /// The number of rows.
    pub fn get(&self) -> u32
        ensures value { result ≡ self.now }
        ensures least { 1 ≤ result }
        ensures most { result ≤ MOST_LIMIT }
    {
        self.value
    }
}
