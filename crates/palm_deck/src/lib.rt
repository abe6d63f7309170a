//! Decks: edits of the table, exchanged as CSV. They are read record by record, and a table is written as one.
#![tactic(auto)]

mod deck;
pub mod laws;
mod read;
#[cfg(test)]
mod tests;
mod write;

pub use deck::{Deck, DeckFault, DeckWhy};
pub use read::read_deck;
pub use write::write_deck;
