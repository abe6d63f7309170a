//! Laws of the definitions. Each function has an empty body: its contract is the law.

ghost use Rattle.palm_base.specs.Laws.{KeysKeepOrder, KeysAreDistinct, CallsKeepTables, HistoriesGoByCalls};
ghost use Rattle.palm_base.specs.Laws.{RepliesStandInPlace, RepliesAreAsMany, PiecesJoin, PiecesAreCounted};
ghost use Rattle.palm_base.specs.Laws.{PiecesAreSized, PiecesAreWide, FewAreOnePiece};
ghost use Rattle.palm_base.specs.TreeLaws.{BatchesKeepRows, BatchesKeepLaw, SecondPassIsWhole, CuttingsKeepRows};
ghost use Rattle.palm_base.specs.TreeLaws.{CuttingsKeepLaw};

/// Keys stand in the order of their prefixes, and no two prefixes have one key.
pub fn keys_keep_order()
    ensures order { KeysKeepOrder }
    ensures distinct { KeysAreDistinct }
{}

/// Each call leaves a table.
pub fn calls_keep_tables()
    ensures { CallsKeepTables }
{}

/// A history leaves of a table what its calls leave one after another.
pub fn histories_go_by_calls()
    ensures { HistoriesGoByCalls }
{}

/// The replies to a history stand in its order, one for each entry: the reply at a place is the answer to the call
/// there on the table that the entries before it leave.
pub fn replies_stand_in_place()
    ensures place { RepliesStandInPlace }
    ensures count { RepliesAreAsMany }
{}

/// The pieces of a cut list are the list, as many and as wide as its length says. Where there are more items than the
/// width, no piece is narrower than half of it.
pub fn cuts_hold<T>()
    ensures join { PiecesJoin T }
    ensures count { PiecesAreCounted T }
    ensures size { PiecesAreSized T }
    ensures wide { PiecesAreWide T }
    ensures few { FewAreOnePiece T }
{}

/// A batch's tree is lawful, and has the rows that its calls leave one after another.
pub fn batches_keep_the_table()
    ensures rows { BatchesKeepRows }
    ensures lawful { BatchesKeepLaw }
{}

/// A pass of Sets leaves nothing loose, so that one more pass puts a batch's orphans back.
pub fn second_pass_is_whole()
    ensures { SecondPassIsWhole }
{}

/// However a history is cut in batches, its tree is lawful, and has the rows that the history leaves. Only the shape
/// depends on the cutting.
pub fn cuttings_keep_the_table()
    ensures rows { CuttingsKeepRows }
    ensures lawful { CuttingsKeepLaw }
{}
