//! A pass of edits over the tree goes up level by level: the inner nodes of a level whose children changed are made
//! anew over what stands for those children.
#![tactic(auto)]

mod level;
mod node_work;
mod plan;
mod task;
#[cfg(test)]
mod tests;

pub use level::change_level;
pub use plan::{all_stand_alone, children_after};
