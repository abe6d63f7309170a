//! The words of the command line: which of them are of the form, and what they set.
#![tactic(auto)]

mod command;
mod settings;
#[cfg(test)]
mod tests;
mod values;
mod words;

pub use settings::{
    DEFAULT_BATCH, DEFAULT_GENERATED_CALLS, DEFAULT_SEED, DEFAULT_WINDOW, DEFAULT_WORKERS,
    MOST_BATCH, MOST_SEED, MOST_WINDOW, Mode, Settings,
};
pub use words::{WordsFault, read_words};
