// The mode `gen`: generated calls are run, and a summary of them is written.
ghost use Rattle.std.specs.Prelude.{◌≡◌, ◌+◌, ◌≤◌, [], IfOk, OnOk, OnErr, IsErrOf, Option, List, ℕ};
ghost use Rattle.std.specs.Io.KnownBytes.{Appends};
ghost use Rattle.std.proofs.Common.{zero};
ghost use Rattle.palm_base.specs.Lawful.{IsLawful};
ghost use Rattle.palm_base.specs.Tree.{rows_of};
ghost use Rattle.palm_tree.specs.TreeValue.{tree_in};
ghost use Rattle.palm_script.specs.Causes.{Rose};
ghost use Rattle.palm_words.specs.Settings.{AreWithin};
ghost use Rattle.palm_words.specs.declared.settings.Mode.{Mode};
ghost use Rattle.palm_cli.specs.Ends.{EndsIn};
ghost use Rattle.palm_cli.specs.Generated.{counts_of, history_said, summary_by, summary_said};
ghost use Rattle.palm_cli.specs.Streams.{AppendsFront};
ghost use Rattle.palm_cli.specs.Tables.{table_left, tree_left, cost_left};

use crate::batch::answer_batch;
use crate::status::Status;
use crate::stop::Stop;
use palm_base::{Entry, NoMemory, Steps};
use palm_engine::Engine;
use palm_gen::{Tally, append_calls, laws, print_summary};
use palm_script::{Sink, write_all};
use palm_share::Gate;
use palm_tree::Tree;
use palm_words::Settings;
use std::alloc::Global;
use std::sync::ledger::Ledger;
use std::thread::Threads;

// Runs the calls that the settings ask for, and counts their replies. Only one batch of them stands in memory, for
// which `batch` is room.
fn run_calls<R: Threads + Sync, G: Gate + Sync, L: Ledger>(
    rt: &R,
    settings: &Settings,
    engine: &mut Engine,
    batch: &mut Vec<Entry>,
    gate: &G,
    steps: &mut Steps<L>,
) -> Result<Tally, NoMemory>
    requires settings { AreWithin settings.now }
    requires new { tree_in engine.old.tree ≡ (zero, []) }
    ensures tally { IfOk result (λ tally. tally ≡ counts_of (history_said settings.now)) }
    ensures tree { OnOk result
        (tree_in engine.new.tree ≡ tree_left settings.now.batch (history_said settings.now)) }
    ensures rows { OnOk result (rows_of (tree_in engine.new.tree) ≡ table_left (history_said settings.now)) }
    ensures ticks { OnOk result
        (steps.new ≤ steps.old + cost_left settings.now.batch (history_said settings.now)) }
    ensures lawful { IsLawful (tree_in engine.new.tree) }
{
    laws::histories_join();
    laws::histories_are_long();
    let mut tally = Tally::new();
    let mut state = settings.seed;
    let mut at = 0u64;
    while at < settings.calls {
        let count = (settings.calls - at).min(u64::from(settings.batch));
        batch.clear();
        state = append_calls(state, at, count as usize, batch)?;
        let replies = answer_batch(rt, settings, at, engine, batch, gate, steps)?;
        tally.add(&replies);
        at += count;
    }
    Ok(tally)
}

// Writes the summary of a run, which is offered whole.
fn write_summary<O: Sink>(
    alloc: Global,
    tally: &Tally,
    tree: &Tree,
    out: &mut O,
) -> Result<(), Stop>
    ensures text { OnOk result
        (Appends (O.taken out.old) (O.taken out.new)
        (summary_by tally.now (rows_of (tree_in tree.now)) (tree_in tree.now))) }
    ensures front { OnErr result
        (AppendsFront (O.taken out.old) (O.taken out.new)
        (summary_by tally.now (rows_of (tree_in tree.now)) (tree_in tree.now))) }
    ensures kept { OnOk result (O.faults out.new ≡ O.faults out.old) }
    ensures unfailed { IsErrOf result Stop.Memory → O.faults out.new ≡ O.faults out.old }
    ensures cause { IsErrOf result Stop.Write → Rose (O.faults out.old) (O.faults out.new) }
{
    let mut text = Vec::new(alloc);
    print_summary(tally, tree.row_count(), tree.levels(), &mut text)?;
    write_all(out, &text)?;
    Ok(())
}

// Runs the calls that the settings ask for on a new engine, and writes their summary.
fn run_summary<R: Threads + Sync, O: Sink, G: Gate + Sync, L: Ledger>(
    rt: &R,
    alloc: Global,
    settings: &Settings,
    engine: &mut Engine,
    out: &mut O,
    gate: &G,
    steps: &mut Steps<L>,
) -> Result<(), Stop>
    requires settings { AreWithin settings.now }
    requires new { tree_in engine.old.tree ≡ (zero, []) }
    ensures text { OnOk result (Appends (O.taken out.old) (O.taken out.new) (summary_said settings.now)) }
    ensures front { OnErr result
        (AppendsFront (O.taken out.old) (O.taken out.new) (summary_said settings.now)) }
    ensures tree { OnOk result
        (tree_in engine.new.tree ≡ tree_left settings.now.batch (history_said settings.now)) }
    ensures ticks { OnOk result
        (steps.new ≤ steps.old + cost_left settings.now.batch (history_said settings.now)) }
    ensures lawful { IsLawful (tree_in engine.new.tree) }
    ensures kept { OnOk result (O.faults out.new ≡ O.faults out.old) }
    ensures unfailed { IsErrOf result Stop.Memory → O.faults out.new ≡ O.faults out.old }
    ensures cause { IsErrOf result Stop.Write → Rose (O.faults out.old) (O.faults out.new) }
{
    let mut batch = Vec::new(alloc);
    let tally = run_calls(rt, settings, engine, &mut batch, gate, steps)?;
    write_summary(alloc, &tally, &engine.tree, out)
}

/// Runs generated calls on a new engine, and writes a summary of them: how many calls there were, the rows of the
/// table and the levels of the tree that they leave, how many numbers were rated, and the sum of the rates that
/// were answered. What a source has left, and how often it failed, stays as it is.
pub fn generate<R: Threads + Sync, O: Sink, G: Gate + Sync, L: Ledger>(
    rt: &R,
    alloc: Global,
    settings: &Settings,
    engine: &mut Engine,
    out: &mut O,
    gate: &G,
    steps: &mut Steps<L>,
) -> Status
    requires settings { AreWithin settings.now }
    requires new { tree_in engine.old.tree ≡ (zero, []) }
    ensures end { (left : Option (List ℕ)) → (reads : ℕ)
        → EndsIn Mode.Gen settings.now result
        (record {
          left = left;
          rest = left;
          taken = O.taken out.old;
          now = O.taken out.new;
          reads_before = reads;
          reads_now = reads;
          writes_before = O.faults out.old;
          writes_now = O.faults out.new;
          steps_before = steps.old;
          steps_now = steps.new;
        })
        (tree_in engine.new.tree) }
    ensures lawful { IsLawful (tree_in engine.new.tree) }
{
    match run_summary(rt, alloc, settings, engine, out, gate, steps) {
        Ok(()) => Status::Done,
        Err(stop) => Status::from(stop),
    }
}
