//! Work in shares: pieces of work that several threads do beside each other, who works, and the gate that is passed
//! before each piece.
#![tactic(auto)]

mod gate;
mod share;
mod shares;
#[cfg(test)]
mod tests;

pub use gate::{Gate, OpenGate, Who};
pub use share::{Job, MOST_WORKERS, each_mut};
pub use shares::cut;
