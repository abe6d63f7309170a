// The engine: a tree, and batches of the first entries of a roll. All that it does to the tree it does by `run_batch`.
ghost use Rattle.std.specs.Prelude.{◌≡◌, ◌+◌, ◌≤◌, [], length, take, IfOk, OnOk, OnErr};
ghost use Rattle.std.proofs.Common.{zero};
ghost use Rattle.palm_share.specs.declared.share.TheConstants.{MOST_WORKERS};
ghost use Rattle.palm_base.specs.History.{calls_of, replies_to, table_after};
ghost use Rattle.palm_base.specs.Lawful.{IsLawful};
ghost use Rattle.palm_base.specs.Pass.{batch_tree};
ghost use Rattle.palm_base.specs.Tree.{rows_of};
ghost use Rattle.palm_tree.specs.TreeValue.{tree_in};
ghost use Rattle.palm_batch.specs.declared.batch.TheConstants.{MOST_CALLS};
ghost use Rattle.palm_batch.specs.Costs.{cost_on};
ghost use Rattle.palm_batch.specs.Passing.{LeavesOthers};

use palm_base::{Entry, NoMemory, Reply, Steps};
use palm_batch::run_batch;
use palm_share::Gate;
use palm_tree::Tree;
use std::alloc::Global;
use std::sync::ledger::Ledger;
use std::thread::Threads;

/// A rating table that is asked and edited in batches.
#[derive(Debug, Drop)]
pub struct Engine {
    /// The tree that holds the table's rows.
    pub tree: Tree,
}

impl Engine {
    /// The engine of an empty table, whose tree is a leaf of no rows. `NoMemory` where the room for it was refused.
    pub fn new(alloc: Global) -> Result<Engine, NoMemory>
        ensures { IfOk result (λ engine. tree_in engine.tree ≡ (zero, [])) }
    {
        Ok(Engine {
            tree: Tree::new(alloc)?,
        })
    }

    /// Runs the first `max` entries of a roll as one batch, or all where they are fewer, with so many workers, and
    /// gives the replies in their order. The rest of the roll is left to further calls.
    ///
    /// `NoMemory` where room was refused. The tree is then as before, node for node and id for id.
    pub fn run_list<R: Threads + Sync, G: Gate + Sync, L: Ledger>(
        &mut self,
        rt: &R,
        roll: &[Entry],
        max: u32,
        workers: u32,
        gate: &G,
        steps: &mut Steps<L>,
    ) -> Result<Vec<Reply>, NoMemory>
        requires least { 1 ≤ max }
        requires most { max ≤ MOST_CALLS }
        requires some { 1 ≤ workers }
        requires few { workers ≤ MOST_WORKERS }
        ensures tree { OnOk result
            (tree_in self.new.tree ≡ batch_tree (tree_in self.old.tree)
            (calls_of (take max roll.now))) }
        ensures replies { IfOk result (λ replies.
            replies.items ≡ replies_to (rows_of (tree_in self.old.tree)) (take max roll.now)) }
        ensures rows { OnOk result
            (rows_of (tree_in self.new.tree)
            ≡ table_after (rows_of (tree_in self.old.tree)) (take max roll.now)) }
        ensures lawful { IsLawful (tree_in self.new.tree) }
        ensures err_nodes { OnErr result (self.new.tree.places ≡ self.old.tree.places) }
        ensures err_shape { OnErr result (self.new.tree.shape ≡ self.old.tree.shape) }
        ensures ticks { steps.new ≤ steps.old + cost_on (tree_in self.old.tree) (take max roll.now) }
        ensures moved { length self.new.tree.moved ≤ cost_on (tree_in self.old.tree) (take max roll.now) }
        ensures others { LeavesOthers self.old.tree self.new.tree }
    {
        let batch = first(roll, max as usize);
        run_batch(rt, &mut self.tree, batch, workers, gate, steps)
    }
}

// The first `max` entries of a roll, or all where they are fewer.
fn first(roll: &[Entry], max: usize) -> &[Entry]
    ensures { result.now ≡ take max roll.now }
{
    if roll.len() <= max {
        return roll;
    }
    &roll[..max]
}
