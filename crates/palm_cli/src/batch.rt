// A batch of calls on the engine, which all modes run.
ghost use Rattle.std.specs.Prelude.{◌≡◌, ◌+◌, ◌≤◌, length, IfOk, OnOk};
ghost use Rattle.palm_base.specs.History.{calls_of, replies_to, table_after};
ghost use Rattle.palm_base.specs.Lawful.{IsLawful};
ghost use Rattle.palm_base.specs.Pass.{batch_tree};
ghost use Rattle.palm_base.specs.Tree.{rows_of};
ghost use Rattle.palm_tree.specs.TreeValue.{tree_in};
ghost use Rattle.palm_batch.specs.Costs.{cost_on};
ghost use Rattle.palm_words.specs.Settings.{AreWithin};

use palm_base::{Entry, NoMemory, Reply, Steps, laws};
use palm_engine::Engine;
use palm_share::{Gate, Who};
use palm_words::Settings;
use std::sync::ledger::Ledger;
use std::thread::Threads;

/// Runs a batch of at most as many calls as the settings say, of which the first has the number n, and gives the
/// replies in their order. `NoMemory` where memory was refused.
pub fn answer_batch<R: Threads + Sync, G: Gate + Sync, L: Ledger>(
    rt: &R,
    settings: &Settings,
    n: u64,
    engine: &mut Engine,
    batch: &[Entry],
    gate: &G,
    steps: &mut Steps<L>,
) -> Result<Vec<Reply>, NoMemory>
    requires settings { AreWithin settings.now }
    requires within { length batch.now ≤ settings.now.batch }
    ensures replies { IfOk result (λ replies.
        replies.items ≡ replies_to (rows_of (tree_in engine.old.tree)) batch.now) }
    ensures same { IfOk result (λ replies. length replies.items ≡ length batch.now) }
    ensures tree { OnOk result
        (tree_in engine.new.tree ≡ batch_tree (tree_in engine.old.tree) (calls_of batch.now)) }
    ensures rows { OnOk result
        (rows_of (tree_in engine.new.tree)
        ≡ table_after (rows_of (tree_in engine.old.tree)) batch.now) }
    ensures lawful { IsLawful (tree_in engine.new.tree) }
    ensures ticks { steps.new ≤ steps.old + cost_on (tree_in engine.old.tree) batch.now }
{
    laws::replies_stand_in_place();
    gate.pass(Who::Driver, n);
    engine.run_list(rt, batch, settings.batch, settings.workers, gate, steps)
}
