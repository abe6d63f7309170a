// The mode `deck`: a deck is read, its edits are run, and the table that they leave is written as a deck.
ghost use Rattle.std.specs.Prelude.{◌≡◌, ◌+◌, ◌≤◌, ◌⊎◌, [], length, IfOk, IfErr, OnOk, OnErr};
ghost use Rattle.std.specs.Prelude.{IsErrOf};
ghost use Rattle.std.specs.Io.KnownBytes.{Appends};
ghost use Rattle.std.proofs.Common.{zero};
ghost use Rattle.palm_base.specs.History.{table_after};
ghost use Rattle.palm_base.specs.Lawful.{IsLawful};
ghost use Rattle.palm_base.specs.Pass.{tree_after};
ghost use Rattle.palm_base.specs.Tree.{rows_of};
ghost use Rattle.palm_deck.specs.Deck.{deck_text};
ghost use Rattle.palm_tree.specs.TreeValue.{tree_in};
ghost use Rattle.palm_script.specs.Causes.{Rose};
ghost use Rattle.palm_script.specs.Transcript.{cut_by};
ghost use Rattle.palm_words.specs.Settings.{AreWithin};
ghost use Rattle.palm_words.specs.declared.settings.Mode.{Mode};
ghost use Rattle.palm_cli.specs.Costs.{batches_cost};
ghost use Rattle.palm_cli.specs.Decks.{deck_left};
ghost use Rattle.palm_cli.specs.Ends.{EndsIn};
ghost use Rattle.palm_cli.specs.Reads.{IsEdits, IsNoDeck};
ghost use Rattle.palm_cli.specs.Statuses.{code_of};
ghost use Rattle.palm_cli.specs.Streams.{AppendsFront};
ghost use Rattle.palm_cli.specs.Tables.{tree_left, cost_left};

use crate::batch::answer_batch;
use crate::status::Status;
use crate::stop::Stop;
use palm_base::{Entry, NoMemory, Steps};
use palm_deck::{Deck, DeckFault, read_deck, write_deck};
use palm_engine::Engine;
use palm_script::{InputEnd, Sink, Source, read_input, write_all};
use palm_share::Gate;
use palm_tree::Tree;
use palm_words::Settings;
use std::alloc::Global;
use std::sync::ledger::Ledger;
use std::thread::Threads;

impl From<DeckFault> for Status {
    ghost use Rattle.std.specs.Prelude.{◌≡◌};
    ghost use Rattle.palm_cli.specs.Stops.{status_by};

    ghost from_gives = { λ fault status. status ≡ status_by fault };

    fn from(fault: DeckFault) -> Status {
        match fault {
            DeckFault::NoMemory => Status::NoMemory,
            DeckFault::Bad { row, why } => Status::BadRow { row, why },
        }
    }
}

// Reads a deck whole, so that no edit runs of one that is bad in its last record. Its bytes are given back at once.
fn read_edits<S: Source>(alloc: Global, src: &mut S) -> Result<Deck, Status>
    ensures ok { IfOk result
        (IsEdits (S.left src.old) (S.left src.new) (S.faults src.old) (S.faults src.new)) }
    ensures err { IfErr result
        (IsNoDeck (S.left src.old) (S.left src.new) (S.faults src.old) (S.faults src.new)) }
{
    let Ok(input) = read_input(alloc, src) else {
        return Err(Status::NoMemory);
    };
    match input.end {
        InputEnd::Whole => Ok(read_deck(alloc, &input.bytes)?),
        InputEnd::Failed => Err(Status::ReadFault),
        InputEnd::Long => Err(Status::TooLong),
    }
}

// Runs edits in batches. Their replies aren't asked for.
fn run_edits<R: Threads + Sync, G: Gate + Sync, L: Ledger>(
    rt: &R,
    settings: &Settings,
    engine: &mut Engine,
    edits: &[Entry],
    gate: &G,
    steps: &mut Steps<L>,
) -> Result<(), NoMemory>
    requires settings { AreWithin settings.now }
    requires lawful { IsLawful (tree_in engine.old.tree) }
    ensures tree { OnOk result
        (tree_in engine.new.tree ≡ tree_after (tree_in engine.old.tree) edits.now
        (cut_by settings.now.batch (length edits.now))) }
    ensures rows { OnOk result
        (rows_of (tree_in engine.new.tree)
        ≡ table_after (rows_of (tree_in engine.old.tree)) edits.now) }
    ensures ticks { OnOk result
        (steps.new ≤ steps.old + batches_cost (tree_in engine.old.tree) edits.now
        (cut_by settings.now.batch (length edits.now))) }
    ensures lawful { IsLawful (tree_in engine.new.tree) }
{
    let most = settings.batch as usize;
    let mut rest = edits;
    let mut at = 0u64;
    while !rest.is_empty() {
        let (batch, after) = rest.split_at(rest.len().min(most));
        answer_batch(rt, settings, at, engine, batch, gate, steps)?;
        at += batch.len() as u64;
        rest = after;
    }
    Ok(())
}

// Writes the table as a deck, which is offered whole.
fn write_table<O: Sink>(alloc: Global, tree: &Tree, out: &mut O) -> Result<(), Stop>
    ensures text { OnOk result
        (Appends (O.taken out.old) (O.taken out.new) (deck_text (rows_of (tree_in tree.now)))) }
    ensures front { OnErr result
        (AppendsFront (O.taken out.old) (O.taken out.new)
        (deck_text (rows_of (tree_in tree.now)))) }
    ensures kept { OnOk result (O.faults out.new ≡ O.faults out.old) }
    ensures unfailed { IsErrOf result Stop.Memory → O.faults out.new ≡ O.faults out.old }
    ensures cause { IsErrOf result Stop.Write → Rose (O.faults out.old) (O.faults out.new) }
{
    let rows = tree.all_rows()?;
    let text = write_deck(alloc, &rows)?;
    write_all(out, &text)?;
    Ok(())
}

// Runs the edits of a deck on a new engine, and writes the table that they leave.
fn run_deck<R: Threads + Sync, O: Sink, G: Gate + Sync, L: Ledger>(
    rt: &R,
    alloc: Global,
    settings: &Settings,
    engine: &mut Engine,
    edits: &[Entry],
    out: &mut O,
    gate: &G,
    steps: &mut Steps<L>,
) -> Result<(), Stop>
    requires settings { AreWithin settings.now }
    requires new { tree_in engine.old.tree ≡ (zero, []) }
    ensures text { OnOk result (Appends (O.taken out.old) (O.taken out.new) (deck_left edits.now)) }
    ensures front { OnErr result (AppendsFront (O.taken out.old) (O.taken out.new) (deck_left edits.now)) }
    ensures tree { OnOk result (tree_in engine.new.tree ≡ tree_left settings.now.batch edits.now) }
    ensures ticks { OnOk result (steps.new ≤ steps.old + cost_left settings.now.batch edits.now) }
    ensures lawful { IsLawful (tree_in engine.new.tree) }
    ensures kept { OnOk result (O.faults out.new ≡ O.faults out.old) }
    ensures unfailed { IsErrOf result Stop.Memory → O.faults out.new ≡ O.faults out.old }
    ensures cause { IsErrOf result Stop.Write → Rose (O.faults out.old) (O.faults out.new) }
{
    run_edits(rt, settings, engine, edits, gate, steps)?;
    write_table(alloc, &engine.tree, out)
}

/// Reads a deck, runs its edits on a new engine, and writes the table that they leave as a deck. Of a deck that
/// isn't read whole, or that has a fault, nothing is run or written.
pub fn deck<R: Threads + Sync, S: Source, O: Sink, G: Gate + Sync, L: Ledger>(
    rt: &R,
    alloc: Global,
    settings: &Settings,
    engine: &mut Engine,
    src: &mut S,
    out: &mut O,
    gate: &G,
    steps: &mut Steps<L>,
) -> Status
    requires settings { AreWithin settings.now }
    requires new { tree_in engine.old.tree ≡ (zero, []) }
    ensures end { EndsIn Mode.Deck settings.now result
        (record {
          left = S.left src.old;
          rest = S.left src.new;
          taken = O.taken out.old;
          now = O.taken out.new;
          reads_before = S.faults src.old;
          reads_now = S.faults src.new;
          writes_before = O.faults out.old;
          writes_now = O.faults out.new;
          steps_before = steps.old;
          steps_now = steps.new;
        })
        (tree_in engine.new.tree) }
    ensures lawful { IsLawful (tree_in engine.new.tree) }
    ensures untouched { (code_of result ≡ 4) ⊎ (code_of result ≡ 7) ⊎ (code_of result ≡ 8)
        → (out.new ≡ out.old) × (engine.new ≡ engine.old) × (steps.new ≡ steps.old) }
{
    let edits = match read_edits(alloc, src) {
        Ok(deck) => deck,
        Err(status) => return status,
    };
    match run_deck(
        rt,
        alloc,
        settings,
        engine,
        edits.as_slice(),
        out,
        gate,
        steps,
    ) {
        Ok(()) => Status::Done,
        Err(stop) => Status::from(stop),
    }
}
