//! Generated calls, which follow from a seed alone, and the summary of a run of them.
#![tactic(auto)]

mod generate;
pub mod laws;
mod summary;
#[cfg(test)]
mod tests;

pub use generate::{append_calls, gen_call};
pub use summary::{MOST_GENERATED_CALLS, Tally, print_summary};
