// What a deck says, and what may be wrong with one. The numbers of its faults are the codes that the program reports.
use palm_base::{Entry, ItemList};
use std::alloc::AllocFailed;
use std::error::Error;
use std::fmt;

/// What a deck says: the edits of its records, in their order. Contracts see the list.
///
/// They are calls of caller 0, with the places 0, 1, 2 and so on.
pub type Deck = ItemList<Entry>;

/// What is wrong with a record of a deck. The number of a variant is the code that is reported.
///
/// Record 1 is judged by `Header` alone, and each other by the rest in the order of their numbers.
#[derive(Clone, Copy, Debug, PartialEq, Eq)]
pub enum DeckWhy {
    /// There is no record, or the first isn't the header `op`, `prefix`, `rate`.
    Header = 1,
    /// The record hasn't three fields.
    Fields = 2,
    /// The first field is neither `set` nor `del`.
    Op = 3,
    /// The second field is not 1 to 15 digits.
    Prefix = 4,
    /// The third field is no number from 0 to `MOST_RATE`, or, of a `del`, it isn't empty.
    Rate = 5,
}

/// Why bytes aren't read as a deck.
#[derive(Clone, Copy, Debug, PartialEq, Eq)]
pub enum DeckFault {
    /// Memory was refused while they were read.
    NoMemory,
    /// They are no deck: this record is the first with a fault.
    Bad {
        /// The number of the record, counted from 1.
        row: u64,
        /// What is wrong with it.
        why: DeckWhy,
    },
}

impl fmt::Display for DeckFault {
    ghost use Rattle.std.specs.Prelude.{Some};
    ghost use Rattle.palm_deck.specs.Deck.{fault_text};

    ghost output = { λ fault. Some (fault_text fault) };

    fn fmt<W: fmt::Write>(&self, f: &mut fmt::Formatter<W>) -> fmt::Result {
        match self {
            DeckFault::NoMemory => write!(f, "no memory"),
            DeckFault::Bad { row, why } => {
                let code = *why as u8;
                write!(f, "row {row} fault {code}")
            }
        }
    }
}

impl Error for DeckFault {}

impl<T: Drop> From<AllocFailed<T>> for DeckFault {
    ghost use Rattle.std.specs.Prelude.{◌≡◌};
    ghost use Rattle.palm_deck.specs.declared.deck.DeckFault.TheVariants as faults;

    ghost from_gives = { λ _ fault. fault ≡ faults.NoMemory };

    fn from(_refused: AllocFailed<T>) -> DeckFault {
        DeckFault::NoMemory
    }
}
