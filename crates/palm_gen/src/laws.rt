//! Laws of the definitions of generated calls. Each function has an empty body: its contract is the law.

ghost use Rattle.palm_gen.specs.Laws.{HistoriesJoin, HistoriesAreLong};

/// Calls that are generated are those of a front, and then those that are drawn from the state after the front.
pub fn histories_join()
    ensures { HistoriesJoin }
{}

/// There are as many generated calls as asked for.
pub fn histories_are_long()
    ensures { HistoriesAreLong }
{}
