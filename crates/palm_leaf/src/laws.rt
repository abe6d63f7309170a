//! The law of the leaves' answers. Its function has an empty body: its contract is the law.

ghost use Rattle.palm_leaf.specs.Laws.{TheLeavesAnswer, TheLeavesAnswerRates};

/// The leaves answer each part of a batch on those of the table's rows that stand in the range of its leaf, one
/// part after another: what `change_leaves` answers for the groups of these parts is this, leaf by leaf. Of the
/// parts of Sets, Dels, Gets and Rates it is what the whole table answers.
pub fn the_leaves_answer()
    ensures ranges { TheLeavesAnswer }
    ensures rates { TheLeavesAnswerRates }
{}
