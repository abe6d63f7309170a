//! Where the tree's nodes stand: an arena that lends them while a batch changes the tree, and takes back what an
//! abandoned batch did, and the levels of nodes that are put over others up to a root.
#![tactic(auto)]

mod arena;
mod journal;
pub mod laws;
mod lease;
mod levels;
mod place;
mod shape;
#[cfg(test)]
mod tests;

pub use arena::Arena;
pub use lease::Lease;
pub use levels::{next_low, raise};
pub use place::Place;
pub use shape::Shape;
