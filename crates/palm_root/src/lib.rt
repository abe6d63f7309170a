//! The last stage of a pass over the tree: the root over the nodes that stand below it, and the rows of removed
//! nodes, which are put into the tree again by a pass of their own.
#![tactic(auto)]

mod removal;
mod root;

pub use removal::orphans;
pub use root::repair;
