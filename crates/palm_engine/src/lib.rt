//! The engine: the tree of a rating table, and the batches of calls that are run on it.
#![tactic(auto)]

mod engine;
#[cfg(test)]
mod tests;

pub use engine::Engine;
