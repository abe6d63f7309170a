// A run: its calls are made and run batch by batch, in one list of entries.
ghost use Rattle.std.specs.Prelude.{◌≡◌, ◌<◌, [], length, IfOk, OnOk};
ghost use Rattle.std.proofs.Common.{zero};
ghost use Rattle.std.specs.List.{AllByRecursion};
ghost use Rattle.palm_base.specs.Lawful.{IsLawful};
ghost use Rattle.palm_base.specs.Tree.{rows_of};
ghost use Rattle.palm_tree.specs.TreeValue.{tree_in};
ghost use Rattle.palm_bench.specs.Kinds.{IsOfKind};
ghost use Rattle.palm_bench.specs.Runs.{reply_number, with_reply, with_replies, HasRun, IsOutcome, Leaves};

use crate::feed::{Feed, Kind};
use crate::plan::Plan;
use palm_base::{Entry, NoMemory, Reply, Steps};
use palm_engine::Engine;
use palm_share::OpenGate;
use std::alloc::Global;
use std::sync::ledger::{Blank, Ledger};
use std::thread::Threads;

/// What the sum is multiplied by before a reply is added, so that the order of replies counts.
const FACTOR: u64 = 31;

/// What came of a run.
#[derive(Debug, Drop)]
pub struct Outcome {
    /// How many rows the table has.
    pub rows: u64,
    /// How many levels its tree has.
    pub levels: u32,
    /// A sum over all replies, in their order.
    pub sum: u64,
}

// A reply as a number: that of its word, and eight times its rate.
fn number_of(reply: &Reply) -> u64
    ensures { result ≡ reply_number reply.now }
{
    match reply {
        Reply::New => 1,
        Reply::Was(rate) => 2 + 8 * rate.get(),
        Reply::Gone(rate) => 3 + 8 * rate.get(),
        Reply::Absent => 4,
        Reply::Value(rate) => 5 + 8 * rate.get(),
        Reply::Hit(row) => 6 + 8 * row.rate.get(),
        Reply::Rows(_) => 7,
    }
}

fn add(sum: u64, reply: &Reply) -> u64
    ensures { result ≡ with_reply sum reply.now }
{
    sum.wrapping_mul(FACTOR).wrapping_add(number_of(reply))
}

// Adds replies to the sum, in their order.
fn add_all(sum: u64, replies: &[Reply]) -> u64
    ensures { result ≡ with_replies sum replies.now }
{
    let mut sum = sum;
    for reply in replies {
        sum = add(sum, reply);
    }
    sum
}

// Makes the next calls in place of those of the batch before.
fn fill(feed: &mut Feed, count: u64, batch: &mut Vec<Entry>) -> Result<(), NoMemory>
    ensures many { OnOk result (length batch.new.items ≡ count) }
    ensures kinds { OnOk result
        (AllByRecursion (λ entry. IsOfKind feed.old.kind entry.call) batch.new.items) }
    ensures kind { feed.new.kind ≡ feed.old.kind }
{
    batch.clear();
    for place in 0..count {
        let call = feed.next();
        batch.push(Entry {
            caller: 0,
            place,
            call,
        })?;
    }
    Ok(())
}

// Runs as many calls of a kind as planned, and adds the replies to the sum.
fn run_calls<R: Threads + Sync, L: Ledger>(
    rt: &R,
    engine: &mut Engine,
    plan: Plan,
    kind: Kind,
    entries: &mut Vec<Entry>,
    sum: u64,
    steps: &mut Steps<L>,
) -> Result<u64, NoMemory>
    requires lawful { IsLawful (tree_in engine.old.tree) }
    ensures lawful { IsLawful (tree_in engine.new.tree) }
    ensures ran { IfOk result (λ total.
        HasRun kind plan.count (rows_of (tree_in engine.old.tree))
        (rows_of (tree_in engine.new.tree)) sum total) }
{
    let nested = matches!(plan.kind, Kind::Nested);
    let mut feed = Feed::new(kind, plan.count, nested);
    let mut sum = sum;
    let mut left = plan.count;
    while left > 0 {
        let count = left.min(u64::from(plan.batch));
        fill(&mut feed, count, entries)?;
        let replies = engine.run_list(rt, entries, plan.batch, plan.workers, &OpenGate, steps)?;
        sum = add_all(sum, &replies);
        left -= count;
    }
    Ok(sum)
}

// Loads the empty table, and runs the calls of the plan on it where that is no load itself.
fn run_plan<R: Threads + Sync, L: Ledger>(
    rt: &R,
    engine: &mut Engine,
    plan: Plan,
    entries: &mut Vec<Entry>,
    steps: &mut Steps<L>,
) -> Result<u64, NoMemory>
    requires new { tree_in engine.old.tree ≡ (zero, []) }
    ensures lawful { IsLawful (tree_in engine.new.tree) }
    ensures leaves { IfOk result (λ sum.
        Leaves plan.kind plan.count (rows_of (tree_in engine.new.tree)) sum) }
{
    let sum = run_calls(rt, engine, plan, Kind::Load, entries, 0, steps)?;
    if let Kind::Load = plan.kind {
        return Ok(sum);
    }
    run_calls(rt, engine, plan, plan.kind, entries, sum, steps)
}

/// Runs what is planned on the empty table: the load first, and then the calls of the plan where it is no load itself.
/// `NoMemory` where room was refused.
pub fn run<R: Threads + Sync, L: Ledger>(
    rt: &R,
    alloc: Global,
    plan: Plan,
    blank: Blank,
) -> Result<Outcome, NoMemory>
    requires blank_name { blank.name ≡ L.name }
    requires blank_parts { blank.parts ≡ L.parts }
    requires blank { 0 < blank.parts }
    ensures outcome { IfOk result (λ outcome.
        IsOutcome plan.kind plan.count outcome.rows outcome.levels outcome.sum) }
{
    let mut steps = Steps::<L>::new(blank);
    let mut engine = Engine::new(alloc)?;
    let mut entries = Vec::with_capacity(alloc, plan.batch as usize)?;
    let sum = run_plan(rt, &mut engine, plan, &mut entries, &mut steps)?;
    Ok(Outcome {
        rows: engine.tree.row_count(),
        levels: engine.tree.levels(),
        sum,
    })
}
