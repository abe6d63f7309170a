// What leaves answer the parts of calls.
use palm_base::{Amount, ItemList, RowList};
use palm_node::Changes;
use palm_route::Part;

/// What a leaf answers a part.
#[derive(Debug, Drop)]
pub enum LeafAnswer {
    /// To a Set, a Del or a look-up: the rate that the part's key had before the part.
    Old(Option<Amount>),
    /// To a List's part: the leaf's rows in the range, as many as the limit allows.
    Found(RowList),
}

/// A part with what its leaf answers.
#[derive(Debug, Drop)]
pub struct PartAnswer {
    /// The part.
    pub part: Part,
    /// What its leaf answers it.
    pub answer: LeafAnswer,
}

/// Answers in the order of the leaves, and for a leaf in the order of its parts. Contracts see the list.
pub type AnswerList = ItemList<PartAnswer>;

/// What comes of the leaves of a batch.
#[derive(Debug, Drop)]
pub struct LeafOutcome {
    /// The answers to all parts.
    pub answers: AnswerList,
    /// What became of the touched leaves.
    pub changes: Changes,
}
