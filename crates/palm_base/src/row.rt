// Rows, and lists of them.
use crate::amount::Amount;
use crate::digits::Digits;
use crate::list::ItemList;

/// A prefix and its rate.
#[derive(Clone, Copy, Debug, PartialEq, Eq)]
pub struct Row {
    /// The prefix, of which a table has one row at most.
    pub prefix: Digits,
    /// The rate, in the user's unit.
    pub rate: Amount,
}

/// Rows in order. Contracts see the list.
pub type RowList = ItemList<Row>;
