// The packed key of a prefix. Sixteen groups of four bits: the digits from the top, zeros after the last, and in the
// lowest group the number of digits. Here are the prefix 44 and the longest one:
//
//     bits    63..60 59..56 55..52 ..  7..4   3..0
//     44         4      4      0   ..    0      2      0x4400000000000002
//     123456789012345
//                1      2      3   ..    5     15      0x123456789012345F
//
// Keys stand in the order of their prefixes: a prefix stands before those that it begins, since it has zeros where they
// have digits, and where those are zeros too, fewer digits come first.
ghost use Rattle.std.specs.Prelude.{◌≡◌, ◌≤◌, ◌<◌, ◌-◌, ◌*◌, ◌/◌, ◌%◌, ◌^◌};
ghost use Rattle.std.specs.Prelude.{nat_lt, length, All, false, position, IfSome, IfNone, Some, slice_index, take};
ghost use Rattle.std.specs.Prelude.{List, ℕ};
ghost use Rattle.palm_base.specs.Prefix.{IsPrefix, begins, digits_in, fault_text, is_no_digit, read_of};
ghost use Rattle.palm_base.specs.Key.{key, digits_of, IsKey};
ghost use Rattle.std.specs.List.{list_all, range_with_len};

use std::error::Error;
use std::fmt;
use std::marker::Model;

/// The greatest number of digits of a prefix or a dialled number, as in ITU-T E.164.
pub const MOST_DIGITS: u32 = 15;

/// A dialled prefix, or a dialled number: 1 to `MOST_DIGITS` digits. Contracts see the list of its digits.
///
/// It is kept as its key, eight bytes, so that comparing two prefixes is comparing two words.
#[derive(Clone, Copy, Debug, PartialEq, Eq, PartialOrd, Ord, Hash)]
pub struct Digits {
    word: u64,
}

impl Model for Digits {
    ghost use Rattle.std.specs.Prelude.{List, ℕ};

    ghost Value = { List ℕ };

    ghost use Rattle.std.proofs.Common.{ap};
    ghost use Rattle.palm_base.specs.Key.{key, digits_of, IsKey};

    ghost view = { λ a. digits_of a.word };

    ghost invariant = { λ a. IsKey a.word };

    ghost inverse = { λ digits. record { word = key digits } };

    ghost inverse_ok = { λ a h. ap (λ (w : ℕ). record { word = w }) h.whole };
}

/// Why a text is no prefix.
#[derive(Clone, Copy, Debug, PartialEq, Eq)]
pub enum DigitsFault {
    /// The text is empty.
    Empty,
    /// The first `MOST_DIGITS` bytes are digits, and there are more bytes.
    Long,
    /// The byte at this place, counted from 0 and below `MOST_DIGITS`, is the first that is no digit.
    NotDigit(u32),
}

impl fmt::Display for DigitsFault {
    ghost output = { λ fault. Some (fault_text fault) };

    fn fmt<W: fmt::Write>(&self, f: &mut fmt::Formatter<W>) -> fmt::Result {
        match self {
            DigitsFault::Empty => write!(f, "no digits"),
            DigitsFault::Long => write!(f, "more than {MOST_DIGITS} digits"),
            DigitsFault::NotDigit(place) => write!(f, "byte {place} is no digit"),
        }
    }
}

impl Error for DigitsFault {}

fn first_no_digit(text: &[u8]) -> Option<usize>
    ensures found { result ≡ position is_no_digit text.now }
    ensures inside { IfSome result (λ i. i < length text.now) }
    ensures none { IfNone result (All (λ b. is_no_digit b ≡ false) text.now) }
{
    text.iter().position(|b| !b.is_ascii_digit())
}

// Whether each of the first `count` groups of a word is a digit.
fn are_digits(word: u64, count: u32) -> bool
    requires { count ≤ MOST_DIGITS }
    ensures { result ≡ list_all (λ place. nat_lt (word / 2 ^ (60 - 4 * place) % 16) 10)
        (range_with_len 0 count) }
{
    (0..count).all(|place| (word >> (60 - 4 * place)) % 16 < 10)
}

impl Digits {
    /// The prefix that a text spells.
    ///
    /// `Empty` exactly where the text is empty, `NotDigit` exactly where one of the first `MOST_DIGITS` bytes is no
    /// digit, with the place of the first such byte, and `Long` exactly where all of these are digits and more
    /// follow.
    pub fn read(text: &[u8]) -> Result<Digits, DigitsFault>
        ensures { result ≡ read_of text.now }
    {
        if text.is_empty() {
            return Err(DigitsFault::Empty);
        }
        let front = text.len().min(MOST_DIGITS as usize);
        if let Some(place) = first_no_digit(&text[..front]) {
            return Err(DigitsFault::NotDigit(place as u32));
        }
        if text.len() > front {
            return Err(DigitsFault::Long);
        }
        Ok(Digits::from_digits(text))
    }

    // The prefix of a text of digits.
    fn from_digits(text: &[u8]) -> Digits
        requires least { 1 ≤ length text.now }
        requires few { length text.now ≤ MOST_DIGITS }
        requires digits { All (λ b. is_no_digit b ≡ false) text.now }
        ensures { result ≡ digits_in text.now }
    {
        let mut word = 0u64;
        let mut weight = 1u64 << 60;
        for b in text {
            word += u64::from(*b - b'0') * weight;
            weight /= 16;
        }
        Digits {
            word: word + text.len() as u64,
        }
    }

    /// The prefix that a word packs. `None` exactly where the word is no prefix's key.
    pub fn from_key(word: u64) -> Option<Digits>
        ensures found { IfSome result (λ digits. IsPrefix digits × (key digits ≡ word)) }
        ensures none { IfNone result ((digits : List ℕ) → IsPrefix digits → key digits ≡ word → ⊥) }
    {
        let len = (word % 16) as u32;
        if len == 0 {
            return None;
        }
        // the groups between the last digit and the number of digits
        let after = (word >> 4) % (1 << (60 - 4 * len));
        if after != 0 {
            return None;
        }
        if !are_digits(word, len) {
            return None;
        }
        Some(Digits { word })
    }

    /// The prefix with this key, at no cost, for a caller that has a key at hand.
    pub fn of_key(word: u64) -> Digits
        requires { IsKey word }
        ensures { result ≡ digits_of word }
    {
        Digits { word }
    }

    /// The packed word. Keys stand in the order of their prefixes, and no two prefixes have one key.
    pub fn key(&self) -> u64
        ensures key { result ≡ key self.now }
        ensures prefix { IsPrefix self.now }
    {
        self.word
    }

    /// The number of digits.
    pub fn len(&self) -> u32
        ensures len { result ≡ length self.now }
        ensures least { 1 ≤ result }
        ensures most { result ≤ MOST_DIGITS }
        ensures prefix { IsPrefix self.now }
    {
        (self.word % 16) as u32
    }

    /// The digit at a place, counted from 0.
    pub fn digit(&self, place: u32) -> u8
        requires { place < length self.now }
        ensures digit { result ≡ slice_index self.now place }
        ensures small { result < 10 }
    {
        ((self.word >> (60 - 4 * place)) % 16) as u8
    }

    /// Whether this prefix begins the other, itself included.
    pub fn begins(&self, other: &Digits) -> bool
        ensures { result ≡ begins self.now other.now }
    {
        let len = self.len();
        if len > other.len() {
            return false;
        }
        let below = 64 - 4 * len;
        self.word >> below == other.word >> below
    }

    /// The first `n` digits.
    pub fn front(&self, n: u32) -> Digits
        requires least { 1 ≤ n }
        requires most { n ≤ length self.now }
        ensures { result ≡ take n self.now }
    {
        let upper = self.word >> (64 - 4 * n);
        Digits {
            word: (upper << (64 - 4 * n)) + u64::from(n),
        }
    }
}
