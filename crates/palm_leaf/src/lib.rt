//! The leaves of a batch: each touched leaf's parts are resolved over its rows, and the rows that are left are cut into
//! leaves again.
#![tactic(auto)]

mod answer;
pub mod laws;
mod leaf_work;
mod leaves;
mod lending;
mod room;
mod rows;
mod settling;
#[cfg(test)]
mod tests;

pub use answer::{AnswerList, LeafAnswer, LeafOutcome, PartAnswer};
pub use leaves::change_leaves;
