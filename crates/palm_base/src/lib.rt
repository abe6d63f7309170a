//! Prefixes, rates, rows and calls, and what a call means: the plain definitions on which the other crates stand.
#![tactic(auto)]

mod amount;
mod bounds;
mod call;
pub mod desk;
mod digits;
pub mod laws;
mod list;
pub mod look_laws;
mod memory;
mod number;
mod row;
mod search;
mod steps;
#[cfg(test)]
mod tests;
pub mod text;
pub mod tree_laws;

pub use amount::{Amount, Limit, MOST_LIMIT, MOST_RATE};
pub use bounds::{LEAST_CHILDREN, LEAST_LEAF_ROWS, MOST_CHILDREN, MOST_LEAF_ROWS, MOST_LEVELS};
pub use call::{Call, Entry, Reply};
pub use digits::{Digits, DigitsFault, MOST_DIGITS};
pub use list::ItemList;
pub use memory::NoMemory;
pub use number::{MOST_NUMBER_DIGITS, number_from_to};
pub use row::{Row, RowList};
pub use search::find_row;
pub use steps::Steps;
