//! Laws of look-ups. Each function has an empty body: its contract is the law.

ghost use Rattle.palm_base.specs.LookLaws.{GetsHold, RatesHold, ListsHold, FullListsHold, LookUpsLeaveTheTable};
ghost use Rattle.palm_base.specs.LookLaws.{EditsAreAnsweredAlone, RepliesGoByEdits, AnswersHold, RepliesHold};

/// A Get is answered alike before and after calls that don't edit its prefix.
pub fn gets_hold()
    ensures { GetsHold }
{}

/// A Rate is answered alike before and after calls that edit no front of its number with as many digits as its row,
/// or more.
pub fn rates_hold()
    ensures { RatesHold }
{}

/// A List is answered alike before and after calls that edit no prefix in its range, or, where it reached its
/// limit, none up to its last row.
pub fn lists_hold()
    ensures range { ListsHold }
    ensures full { FullListsHold }
{}

/// Look-ups leave the table: what a history leaves, and what its edits are answered, goes by its edits alone.
pub fn look_ups_leave_the_table()
    ensures table { LookUpsLeaveTheTable }
    ensures edits { EditsAreAnsweredAlone }
    ensures place { RepliesGoByEdits }
{}

/// A call is answered alike before and after calls of which no edit is at a key that matters to it. So where no
/// earlier edit of a batch is, it is answered on the table before the batch.
pub fn answers_hold()
    ensures call { AnswersHold }
    ensures place { RepliesHold }
{}
