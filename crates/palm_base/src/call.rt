// What callers ask of the table, and what they are answered. What each call means is said by `answer` and `after`
// of `specs/Table`.
use crate::amount::{Amount, Limit};
use crate::digits::Digits;
use crate::row::{Row, RowList};

/// What a caller asks of the table.
#[derive(Clone, Copy, Debug, PartialEq, Eq)]
pub enum Call {
    /// Gives the prefix a row with this rate, new or in place of the old one.
    Set {
        /// The row's prefix.
        prefix: Digits,
        /// The row's rate.
        rate: Amount,
    },
    /// Takes out the row of the prefix.
    Del {
        /// The row's prefix.
        prefix: Digits,
    },
    /// Asks for the rate of the prefix's own row.
    Get {
        /// The row's prefix.
        prefix: Digits,
    },
    /// Asks for the row of the longest prefix that begins the number.
    Rate {
        /// The dialled number.
        number: Digits,
    },
    /// Asks for the first rows from one prefix to another, both included.
    List {
        /// The least prefix that is shown.
        from: Digits,
        /// The greatest prefix that is shown.
        to: Digits,
        /// How many rows are shown at most.
        limit: Limit,
    },
}

/// What a call is answered.
#[derive(Debug, Drop)]
pub enum Reply {
    /// To a Set: the prefix had no row.
    New,
    /// To a Set: the prefix had this rate.
    Was(Amount),
    /// To a Del: the row with this rate was taken out.
    Gone(Amount),
    /// To a Del, a Get or a Rate: there is no such row.
    Absent,
    /// To a Get: the prefix has this rate.
    Value(Amount),
    /// To a Rate: the row of the longest prefix that begins the number.
    Hit(Row),
    /// To a List: its rows.
    Rows(RowList),
}

/// A call, its caller, and its place among that caller's calls, counted from 0.
#[derive(Clone, Copy, Debug, PartialEq, Eq)]
pub struct Entry {
    /// Who asks: the number of a caller.
    pub caller: u32,
    /// How many calls the caller made before this one.
    pub place: u64,
    /// What is asked.
    pub call: Call,
}
