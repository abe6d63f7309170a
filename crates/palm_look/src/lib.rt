//! The look-ups of a batch that no edit of the batch meets: they are answered on the tree as it stands before the
//! batch.
#![tactic(auto)]

mod edit_keys;
mod look_ups;
mod met;
#[cfg(test)]
mod tests;

pub use look_ups::answer_unmet;
