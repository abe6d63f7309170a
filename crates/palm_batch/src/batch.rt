// A batch over a tree, as it is called from above.
ghost use Rattle.std.specs.Prelude.{◌≡◌, ◌+◌, ◌≤◌, [], length, IfOk, OnOk, OnErr};
ghost use Rattle.palm_share.specs.declared.share.TheConstants.{MOST_WORKERS};
ghost use Rattle.palm_base.specs.History.{calls_of, replies_to, table_after};
ghost use Rattle.palm_base.specs.Lawful.{IsLawful};
ghost use Rattle.palm_base.specs.Pass.{batch_tree};
ghost use Rattle.palm_base.specs.Tree.{rows_of};
ghost use Rattle.palm_tree.specs.TreeValue.{tree_in};
ghost use Rattle.palm_batch.specs.Costs.{cost_on};
ghost use Rattle.palm_batch.specs.Passing.{LeavesOthers};

use crate::open_calls::{fill_in, has_look_up, open_entries};
use crate::passes::{Ran, run_passes};
use crate::row_count::rows_after;
use palm_base::{Entry, NoMemory, Reply, Steps};
use palm_look::answer_unmet;
use palm_share::Gate;
use palm_tree::Tree;
use std::sync::ledger::Ledger;
use std::thread::Threads;

/// The greatest number of calls in a batch.
pub const MOST_CALLS: usize = 65_536;

// Runs a batch of calls over a tree by its passes, the look-ups too. The contract is that of `run_batch`.
fn run_all<R: Threads + Sync, G: Gate + Sync, L: Ledger>(
    rt: &R,
    tree: &mut Tree,
    batch: &[Entry],
    workers: u32,
    gate: &G,
    steps: &mut Steps<L>,
) -> Result<Vec<Reply>, NoMemory>
    requires few_calls { length batch.now ≤ MOST_CALLS }
    requires some { 1 ≤ workers }
    requires few { workers ≤ MOST_WORKERS }
    ensures tree { OnOk result (tree_in tree.new ≡ batch_tree (tree_in tree.old) (calls_of batch.now)) }
    ensures replies { IfOk result (λ replies.
        replies.items ≡ replies_to (rows_of (tree_in tree.old)) batch.now) }
    ensures rows { OnOk result
        (rows_of (tree_in tree.new) ≡ table_after (rows_of (tree_in tree.old)) batch.now) }
    ensures lawful { IsLawful (tree_in tree.new) }
    ensures err_nodes { OnErr result (tree.new.places ≡ tree.old.places) }
    ensures err_shape { OnErr result (tree.new.shape ≡ tree.old.shape) }
    ensures ticks { steps.new ≤ steps.old + cost_on (tree_in tree.old) batch.now }
    ensures moved { length tree.new.moved ≤ cost_on (tree_in tree.old) batch.now }
    ensures others { LeavesOthers tree.old tree.new }
{
    let alloc = tree.arena.allocator();
    tree.arena.begin();
    let ran = run_passes(
        rt,
        alloc,
        &mut tree.arena,
        tree.shape,
        batch,
        workers,
        gate,
        steps,
    );
    match ran {
        Ok(Ran { shape, replies }) => {
            tree.arena.commit();
            tree.shape = shape;
            tree.rows = rows_after(tree.rows, &replies);
            Ok(replies)
        }
        Err(refused) => {
            tree.arena.rollback();
            Err(refused)
        }
    }
}

// Forgets which ids the last batch moved.
fn forget_moved(tree: &mut Tree)
    ensures places { tree.new.places ≡ tree.old.places }
    ensures shape { tree.new.shape ≡ tree.old.shape }
    ensures tree { tree_in tree.new ≡ tree_in tree.old }
    ensures moved { tree.new.moved ≡ [] }
{
    tree.arena.begin();
    tree.arena.commit();
}

/// Runs a batch of calls over a tree, with so many workers, and gives the replies in the batch's order: each is the
/// table's at its call's place. The tree is then the serial rule's, node for node, whatever the workers and the
/// gate.
///
/// A look-up that no edit of the batch could change is answered on the tree as it stands before the batch, and
/// costs a way down. The other calls cost a sort of their parts, a way down for each, and the touched nodes; what
/// no part touches isn't looked at.
///
/// `NoMemory` where room was refused. The tree is then as before, node for node and id for id.
pub fn run_batch<R: Threads + Sync, G: Gate + Sync, L: Ledger>(
    rt: &R,
    tree: &mut Tree,
    batch: &[Entry],
    workers: u32,
    gate: &G,
    steps: &mut Steps<L>,
) -> Result<Vec<Reply>, NoMemory>
    requires few_calls { length batch.now ≤ MOST_CALLS }
    requires some { 1 ≤ workers }
    requires few { workers ≤ MOST_WORKERS }
    ensures tree { OnOk result (tree_in tree.new ≡ batch_tree (tree_in tree.old) (calls_of batch.now)) }
    ensures replies { IfOk result (λ replies.
        replies.items ≡ replies_to (rows_of (tree_in tree.old)) batch.now) }
    ensures rows { OnOk result
        (rows_of (tree_in tree.new) ≡ table_after (rows_of (tree_in tree.old)) batch.now) }
    ensures lawful { IsLawful (tree_in tree.new) }
    ensures err_nodes { OnErr result (tree.new.places ≡ tree.old.places) }
    ensures err_shape { OnErr result (tree.new.shape ≡ tree.old.shape) }
    ensures ticks { steps.new ≤ steps.old + cost_on (tree_in tree.old) batch.now }
    ensures moved { length tree.new.moved ≤ cost_on (tree_in tree.old) batch.now }
    ensures others { LeavesOthers tree.old tree.new }
{
    if !has_look_up(batch) {
        return run_all(rt, tree, batch, workers, gate, steps);
    }
    // Else an early end would leave those that the last batch moved.
    forget_moved(tree);
    let alloc = tree.arena.allocator();
    let known = answer_unmet(rt, tree, batch, workers, gate)?;
    let open = open_entries(alloc, batch, &known)?;
    let room = Vec::with_capacity(alloc, batch.len())?;
    let replies = run_all(rt, tree, &open, workers, gate, steps)?;
    Ok(fill_in(known, replies, room))
}
