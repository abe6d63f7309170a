//! What the words set, with the bounds and the defaults of the numbers.

use palm_script::DumpWhen;

/// The number of workers where the words don't say it.
pub const DEFAULT_WORKERS: u32 = 1;

/// The most calls of a batch. It bounds the memory of a batch, whose calls and replies are held until it ends.
pub const MOST_BATCH: u32 = 65_536;

/// The most calls of a batch where the words don't say it.
pub const DEFAULT_BATCH: u32 = 4_096;

/// The greatest window.
pub const MOST_WINDOW: u32 = 64;

/// The window where the words don't say it.
pub const DEFAULT_WINDOW: u32 = 16;

/// The greatest seed.
pub const MOST_SEED: u64 = u64::MAX;

/// The seed where the words don't say it.
pub const DEFAULT_SEED: u64 = 0;

/// How many calls are generated where the words don't say it.
pub const DEFAULT_GENERATED_CALLS: u64 = 1_000;

/// What the program does.
#[derive(Clone, Copy, Debug, PartialEq, Eq)]
pub enum Mode {
    /// It runs a script.
    Replay,
    /// It reads a deck whole, runs its edits, and writes the table that they leave as a deck.
    Deck,
    /// It reads nothing, runs generated calls, and writes a summary.
    Gen,
}

/// What the words set. A mode that has no use for a number doesn't look at it.
#[derive(Clone, Copy, Debug, PartialEq, Eq)]
pub struct Settings {
    /// What the program does.
    pub mode: Mode,
    /// How many threads work on a batch.
    pub workers: u32,
    /// The most calls of a batch.
    pub batch: u32,
    /// How many calls a caller may have under way. No mode uses it yet.
    pub window: u32,
    /// Whether the tree is dumped without a line that asks for it.
    pub dump: DumpWhen,
    /// What generated calls follow from.
    pub seed: u64,
    /// How many calls are generated.
    pub calls: u64,
}
