//! The table's tree: a lawful B+ tree, how it is built from sorted rows, how its rows are looked up, and its shape
//! as text.
#![tactic(auto)]

mod build;
mod dump;
mod floor;
mod list;
mod look_ups;
mod rows;
#[cfg(test)]
mod tests;
mod tree;

pub use tree::Tree;
