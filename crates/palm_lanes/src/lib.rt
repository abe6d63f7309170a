//! Key search in lanes: where a key stands among the sixteen keys of a node, each call by two vector comparisons.
#![tactic(auto)]

mod search;
#[cfg(test)]
mod tests;

pub use search::{KEY_ROOM, count_at_most, find};
