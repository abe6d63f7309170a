//! Which leaves of a tree the calls of a batch touch: each call is split into parts that ask one leaf each, the
//! parts are routed down the tree, and those of a leaf are put together.
#![tactic(auto)]

mod descent;
mod expansion;
mod grouping;
pub mod laws;
mod part;
#[cfg(test)]
mod tests;

pub use descent::descend;
pub use expansion::expand;
pub use grouping::group;
pub use part::{Ask, Group, Groups, Part, PartList, Routed, RoutedList};
