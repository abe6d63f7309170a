//! Laws of routing. Each function has an empty body: its contract is the law.

ghost use Rattle.palm_route.specs.Laws.{LeavesRise, LeavesAreThere, ListsMeetLeaves, KeysComeHome, PartsKeepEdits};
ghost use Rattle.palm_route.specs.Laws.{PartsAreCounted};

/// The ranges of a lawful tree's leaves begin one after another, and there is a leaf at least. So `group` puts
/// together what `descend` has routed down such a tree.
pub fn leaves_rise()
    ensures rise { LeavesRise }
    ensures some { LeavesAreThere }
{}

/// A List's parts are those of the leaves whose ranges have one of its keys, and each of them is routed to its leaf.
pub fn lists_meet_leaves()
    ensures keys { ListsMeetLeaves }
    ensures home { KeysComeHome }
{}

/// The parts of a batch ask for its edits, in their order.
pub fn parts_keep_edits()
    ensures { PartsKeepEdits }
{}

/// How many parts a batch has goes by the tree's value, and not by the places where its nodes stand.
pub fn parts_are_counted()
    ensures { PartsAreCounted }
{}
