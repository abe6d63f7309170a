// What a run does.
ghost use Rattle.std.specs.Prelude.{◌≤◌};
ghost use Rattle.palm_share.specs.declared.share.TheConstants.{MOST_WORKERS};
ghost use Rattle.palm_batch.specs.declared.batch.TheConstants.{MOST_CALLS};
ghost use Rattle.palm_bench.specs.declared.plan.TheConstants.{MOST_COUNT};

use crate::feed::Kind;

/// The greatest number of calls of a run, so that all its prefixes have nine digits.
pub const MOST_COUNT: u64 = 100_000_000;

/// What a run does.
#[derive(Clone, Copy, Debug)]
pub struct Plan {
    /// What its calls are.
    pub kind: Kind,
    /// How many calls it makes, after as many that load the table where it is no load itself.
    pub count: u64,
    /// How many calls a batch has at most.
    pub batch: u32,
    /// How many threads work on a batch at most.
    pub workers: u32,
    ghost some_calls: { 1 ≤ count },
    ghost few_calls: { count ≤ MOST_COUNT },
    ghost some_batch: { 1 ≤ batch },
    ghost few_batch: { batch ≤ MOST_CALLS },
    ghost some_workers: { 1 ≤ workers },
    ghost few_workers: { workers ≤ MOST_WORKERS },
}
