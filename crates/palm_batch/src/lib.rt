//! Batches of calls over a tree: a pass of a batch's edits with the replies to its calls, and a second pass that
//! puts the rows of removed nodes in again.
#![tactic(auto)]

mod batch;
mod open_calls;
mod pass;
mod passes;
mod replies;
mod row_count;

pub use batch::{MOST_CALLS, run_batch};
pub use pass::{Passed, run_pass};
pub use replies::join_answers;

#[cfg(test)]
mod calls;
#[cfg(test)]
mod stage_tests;
#[cfg(test)]
mod tests;
