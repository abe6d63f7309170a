// Parts of calls, routed parts, and groups of them.
ghost use Rattle.std.specs.Prelude.{◌≡◌};

use palm_base::{Amount, Digits, ItemList, Limit};
use palm_node::{NodeId, Path};

/// Parts of calls, in order. Contracts see the list.
pub type PartList = ItemList<Part>;

/// Routed parts, in order. Contracts see the list.
pub type RoutedList = ItemList<Routed>;

/// What a part asks of its leaf.
#[derive(Clone, Copy, Debug, PartialEq, Eq)]
pub enum Ask {
    /// Gives the prefix of the part's key a row with this rate.
    Set(Amount),
    /// Takes out the row of the prefix of the part's key.
    Del,
    /// Looks for the row of the prefix of the part's key.
    Look,
    /// Lists rows from one prefix to another, both included, as many as the limit allows.
    List {
        /// The least prefix that is shown.
        from: Digits,
        /// The greatest prefix that is shown.
        to: Digits,
        /// How many rows the whole list shows at most.
        limit: Limit,
    },
}

/// A part of a call, which one leaf answers.
#[derive(Debug, Drop)]
pub struct Part {
    /// The place of the call's entry in the batch, counted from 0.
    pub entry: u64,
    /// The part's number within its entry, counted from 0.
    pub number: u64,
    /// The packed key by which it is routed.
    pub key: u64,
    /// What it asks of its leaf.
    pub ask: Ask,
}

impl Part {
    /// The same part once more.
    pub fn copy(&self) -> Part
        ensures { result ≡ self.now }
    {
        Part {
            entry: self.entry,
            number: self.number,
            key: self.key,
            ask: self.ask,
        }
    }
}

/// A part with the leaf whose range has its key.
#[derive(Debug, Drop)]
pub struct Routed {
    /// The part.
    pub part: Part,
    /// The leaf.
    pub leaf: NodeId,
    /// The way to the leaf from the root.
    pub path: Path,
    /// The packed key at which the leaf's range begins, 0 for the first leaf.
    pub low: u64,
}

/// A touched leaf with its parts.
#[derive(Debug, Drop)]
pub struct Group {
    /// The leaf.
    pub leaf: NodeId,
    /// The way to the leaf from the root.
    pub path: Path,
    /// The packed key at which the leaf's range begins, 0 for the first leaf.
    pub low: u64,
    /// The leaf's parts in the order in which their calls arrived.
    pub parts: PartList,
}

/// The touched leaves with their parts, in the order of the leaves. Contracts see the list of groups.
pub type Groups = ItemList<Group>;
