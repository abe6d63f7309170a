//! Further laws of tables and trees. Each function has an empty body: its contract is the law.

ghost use Rattle.palm_base.specs.FurtherLaws.{FrontsFindTheBest, BatchesKeepLows, CuttingsKeepLows};
ghost use Rattle.palm_base.specs.FurtherLaws.{SortedRowsAreTheTable, AnySortMakesTheOrphans, HighTreesHoldMany};
ghost use Rattle.palm_base.specs.FurtherLaws.{LawfulTreesAreLow, EditsGoByPlace, PassesGoByPlace, LawIsLiteral};

/// The row by which a number is rated, that of the longest prefix that begins it, is found by looking up the fronts of
/// the number, from the longest to the shortest.
pub fn fronts_find_the_best()
    ensures { FrontsFindTheBest }
{}

/// A batch whose Sets are of prefixes keeps the lows of a tree keys of prefixes, all but a node's first, which is 0. So
/// each can be printed as a prefix. So does a history, however it is cut.
pub fn batches_keep_lows()
    ensures batch { BatchesKeepLows }
    ensures history { CuttingsKeepLows }
{}

/// The same rows in strictly rising order, by whatever sort, are what their Sets leave of the empty table. So the
/// rows that a pass through a lawful tree leaves loose, of which no two have one key, may be sorted by key in any
/// way: they are the orphans.
pub fn any_sort_makes_the_orphans()
    ensures table { SortedRowsAreTheTable }
    ensures orphans { AnySortMakesTheOrphans }
{}

/// A lawful tree of many levels has many rows. Since there are only so many prefixes, it has at most `MOST_LEVELS`
/// levels where its rows go by prefixes.
pub fn lawful_trees_are_low()
    ensures rows { HighTreesHoldMany }
    ensures levels { LawfulTreesAreLow }
{}

/// Two rules that are defined in a form that computes are what one would say first. An edit goes to the last child
/// whose low is at most its key. A tree is lawful where its rows strictly rise, its nodes are filled, the lows of a
/// node strictly rise from 0, and each row under a child has a key from the child's low on and below the low of the
/// next.
pub fn rules_are_literal()
    ensures places { EditsGoByPlace }
    ensures passes { PassesGoByPlace }
    ensures lawful { LawIsLiteral }
{}
