// The run of a script: its sections, each in batches, with what is written of them.
ghost use Rattle.std.specs.Prelude.{◌≡◌, ◌+◌, ◌≤◌, ◌++◌, length, sum_by, OnOk, OnErr, IsErrOf};
ghost use Rattle.std.specs.Io.KnownBytes.{Appends};
ghost use Rattle.palm_base.specs.History.{calls_of, table_after};
ghost use Rattle.palm_base.specs.Lawful.{IsLawful};
ghost use Rattle.palm_base.specs.Pass.{batch_tree, tree_after};
ghost use Rattle.palm_base.specs.Tree.{rows_of};
ghost use Rattle.palm_tree.specs.TreeValue.{tree_in};
ghost use Rattle.palm_batch.specs.Costs.{cost_on};
ghost use Rattle.palm_script.specs.Causes.{Rose};
ghost use Rattle.palm_script.specs.Transcript.{reply_lines, come_to, dump_text, batch_text, batches_text};
ghost use Rattle.palm_script.specs.Transcript.{section_text, sections_text, ending, cut_by, section_by};
ghost use Rattle.palm_script.specs.Transcript.{sections_by, after_section, after_sections};
ghost use Rattle.palm_words.specs.Settings.{AreWithin};
ghost use Rattle.palm_cli.specs.Costs.{batches_cost, sections_cost};
ghost use Rattle.palm_cli.specs.Streams.{AppendsFront};

use crate::batch::answer_batch;
use crate::stop::Stop;
use palm_base::{Entry, NoMemory, Reply, Steps};
use palm_engine::Engine;
use palm_script::{MOST_BYTES, SectionEnd, Sink, print_batch, print_end, print_reply, write_all};
use palm_share::Gate;
use palm_tree::Tree;
use palm_words::Settings;
use std::sync::ledger::Ledger;
use std::thread::Threads;

// Appends the lines of a batch's calls, of which the first has the number n.
fn print_replies(
    n: u64,
    batch: &[Entry],
    replies: &[Reply],
    text: &mut Vec<u8>,
) -> Result<(), NoMemory>
    requires same { length replies.now ≡ length batch.now }
    requires fits { n + length batch.now ≤ MOST_BYTES }
    ensures { OnOk result (text.new.items ≡ text.old.items ++ reply_lines n batch.now replies.now) }
{
    for (i, reply) in replies.iter().enumerate() {
        print_reply(n + i as u64, batch[i].caller, reply, text)?;
    }
    Ok(())
}

// Appends the shape of a tree, where it is dumped.
fn print_dump(dumps: bool, tree: &Tree, text: &mut Vec<u8>) -> Result<(), NoMemory>
    ensures { OnOk result (text.new.items ≡ text.old.items ++ dump_text dumps (tree_in tree.now)) }
{
    if dumps {
        return tree.dump(text);
    }
    Ok(())
}

// Runs a batch on the engine, and appends its text.
fn replay_batch<R: Threads + Sync, G: Gate + Sync, L: Ledger>(
    rt: &R,
    settings: &Settings,
    n: u64,
    engine: &mut Engine,
    batch: &[Entry],
    gate: &G,
    steps: &mut Steps<L>,
    text: &mut Vec<u8>,
) -> Result<(), NoMemory>
    requires settings { AreWithin settings.now }
    requires within { length batch.now ≤ settings.now.batch }
    requires fits { n + length batch.now ≤ MOST_BYTES }
    ensures text { OnOk result
        (text.new.items ≡ text.old.items ++ batch_text settings.now.dump
        (come_to n (tree_in engine.old.tree)) batch.now) }
    ensures tree { OnOk result
        (tree_in engine.new.tree ≡ batch_tree (tree_in engine.old.tree) (calls_of batch.now)) }
    ensures rows { OnOk result
        (rows_of (tree_in engine.new.tree)
        ≡ table_after (rows_of (tree_in engine.old.tree)) batch.now) }
    ensures lawful { IsLawful (tree_in engine.new.tree) }
    ensures ticks { OnOk result (steps.new ≤ steps.old + cost_on (tree_in engine.old.tree) batch.now) }
{
    let replies = answer_batch(rt, settings, n, engine, batch, gate, steps)?;
    print_replies(n, batch, &replies, text)?;
    print_batch(batch.len() as u32, text)?;
    print_dump(settings.dump.dumps_batches(), &engine.tree, text)
}

// Runs a batch, of which the first call has the number n, and offers the sink its text whole. `text` is room for it.
fn write_batch<R: Threads + Sync, O: Sink, G: Gate + Sync, L: Ledger>(
    rt: &R,
    settings: &Settings,
    n: u64,
    engine: &mut Engine,
    batch: &[Entry],
    out: &mut O,
    gate: &G,
    steps: &mut Steps<L>,
    text: &mut Vec<u8>,
) -> Result<(), Stop>
    requires settings { AreWithin settings.now }
    requires within { length batch.now ≤ settings.now.batch }
    requires fits { n + length batch.now ≤ MOST_BYTES }
    ensures text { OnOk result
        (Appends (O.taken out.old) (O.taken out.new)
        (batch_text settings.now.dump (come_to n (tree_in engine.old.tree)) batch.now)) }
    ensures front { OnErr result
        (AppendsFront (O.taken out.old) (O.taken out.new)
        (batch_text settings.now.dump (come_to n (tree_in engine.old.tree)) batch.now)) }
    ensures tree { OnOk result
        (tree_in engine.new.tree ≡ batch_tree (tree_in engine.old.tree) (calls_of batch.now)) }
    ensures rows { OnOk result
        (rows_of (tree_in engine.new.tree)
        ≡ table_after (rows_of (tree_in engine.old.tree)) batch.now) }
    ensures ticks { OnOk result (steps.new ≤ steps.old + cost_on (tree_in engine.old.tree) batch.now) }
    ensures lawful { IsLawful (tree_in engine.new.tree) }
    ensures kept { OnOk result (O.faults out.new ≡ O.faults out.old) }
    ensures unfailed { IsErrOf result Stop.Memory → O.faults out.new ≡ O.faults out.old }
    ensures cause { IsErrOf result Stop.Write → Rose (O.faults out.old) (O.faults out.new) }
{
    text.clear();
    replay_batch(rt, settings, n, engine, batch, gate, steps, text)?;
    write_all(out, text)?;
    Ok(())
}

// Runs calls in batches, of which the first call has the number n, and offers the sink the text of each batch
// whole. `text` is room for it.
fn run_batches<R: Threads + Sync, O: Sink, G: Gate + Sync, L: Ledger>(
    rt: &R,
    settings: &Settings,
    n: u64,
    engine: &mut Engine,
    calls: &[Entry],
    out: &mut O,
    gate: &G,
    steps: &mut Steps<L>,
    text: &mut Vec<u8>,
) -> Result<(), Stop>
    requires settings { AreWithin settings.now }
    requires fits { n + length calls.now ≤ MOST_BYTES }
    requires lawful { IsLawful (tree_in engine.old.tree) }
    ensures text { OnOk result
        (Appends (O.taken out.old) (O.taken out.new)
        (batches_text settings.now.dump (come_to n (tree_in engine.old.tree)) calls.now
        (cut_by settings.now.batch (length calls.now)))) }
    ensures front { OnErr result
        (AppendsFront (O.taken out.old) (O.taken out.new)
        (batches_text settings.now.dump (come_to n (tree_in engine.old.tree)) calls.now
        (cut_by settings.now.batch (length calls.now)))) }
    ensures tree { OnOk result
        (tree_in engine.new.tree ≡ tree_after (tree_in engine.old.tree) calls.now
        (cut_by settings.now.batch (length calls.now))) }
    ensures rows { OnOk result
        (rows_of (tree_in engine.new.tree)
        ≡ table_after (rows_of (tree_in engine.old.tree)) calls.now) }
    ensures ticks { OnOk result
        (steps.new ≤ steps.old + batches_cost (tree_in engine.old.tree) calls.now
        (cut_by settings.now.batch (length calls.now))) }
    ensures lawful { IsLawful (tree_in engine.new.tree) }
    ensures kept { OnOk result (O.faults out.new ≡ O.faults out.old) }
    ensures unfailed { IsErrOf result Stop.Memory → O.faults out.new ≡ O.faults out.old }
    ensures cause { IsErrOf result Stop.Write → Rose (O.faults out.old) (O.faults out.new) }
{
    let most = settings.batch as usize;
    let mut rest = calls;
    let mut at = n;
    while !rest.is_empty() {
        let (batch, after) = rest.split_at(rest.len().min(most));
        write_batch(rt, settings, at, engine, batch, out, gate, steps, text)?;
        at += batch.len() as u64;
        rest = after;
    }
    Ok(())
}

// Runs a section, of which the first call has the number n. A dump after it is offered whole too.
fn run_section<R: Threads + Sync, O: Sink, G: Gate + Sync, L: Ledger>(
    rt: &R,
    settings: &Settings,
    n: u64,
    engine: &mut Engine,
    calls: &[Entry],
    dumps: bool,
    out: &mut O,
    gate: &G,
    steps: &mut Steps<L>,
    text: &mut Vec<u8>,
) -> Result<(), Stop>
    requires settings { AreWithin settings.now }
    requires fits { n + length calls.now ≤ MOST_BYTES }
    requires lawful { IsLawful (tree_in engine.old.tree) }
    ensures text { OnOk result
        (Appends (O.taken out.old) (O.taken out.new)
        (section_text settings.now.dump (come_to n (tree_in engine.old.tree))
        (section_by settings.now.batch calls.now dumps))) }
    ensures front { OnErr result
        (AppendsFront (O.taken out.old) (O.taken out.new)
        (section_text settings.now.dump (come_to n (tree_in engine.old.tree))
        (section_by settings.now.batch calls.now dumps))) }
    ensures after { OnOk result
        (after_section (come_to n (tree_in engine.old.tree))
        (section_by settings.now.batch calls.now dumps)
        ≡ come_to (n + length calls.now) (tree_in engine.new.tree)) }
    ensures ticks { OnOk result
        (steps.new ≤ steps.old + batches_cost (tree_in engine.old.tree) calls.now
        (cut_by settings.now.batch (length calls.now))) }
    ensures lawful { IsLawful (tree_in engine.new.tree) }
    ensures kept { OnOk result (O.faults out.new ≡ O.faults out.old) }
    ensures unfailed { IsErrOf result Stop.Memory → O.faults out.new ≡ O.faults out.old }
    ensures cause { IsErrOf result Stop.Write → Rose (O.faults out.old) (O.faults out.new) }
{
    run_batches(rt, settings, n, engine, calls, out, gate, steps, text)?;
    text.clear();
    print_dump(dumps, &engine.tree, text)?;
    write_all(out, text)?;
    Ok(())
}

/// Runs the sections of a script on an engine: the calls of each in batches of as many as the settings say. It
/// offers the sink the text of each batch whole, and each dump that a line asks for. `text` is room for these.
///
/// `Memory` where memory is refused, and `Write` only where the sink's count of faults rose. The sink has then
/// taken a front of the transcript. The engine's tree is lawful in any case.
pub fn run_sections<R: Threads + Sync, O: Sink, G: Gate + Sync, L: Ledger>(
    rt: &R,
    settings: &Settings,
    engine: &mut Engine,
    entries: &[Entry],
    ends: &[SectionEnd],
    out: &mut O,
    gate: &G,
    steps: &mut Steps<L>,
    text: &mut Vec<u8>,
) -> Result<(), Stop>
    requires settings { AreWithin settings.now }
    requires few { length entries.now ≤ MOST_BYTES }
    requires within { sum_by (λ end. end.calls) ends.now ≤ length entries.now }
    requires lawful { IsLawful (tree_in engine.old.tree) }
    ensures text { OnOk result
        (Appends (O.taken out.old) (O.taken out.new)
        (sections_text settings.now.dump (come_to 0 (tree_in engine.old.tree))
        (sections_by settings.now.batch entries.now ends.now))) }
    ensures front { OnErr result
        (AppendsFront (O.taken out.old) (O.taken out.new)
        (sections_text settings.now.dump (come_to 0 (tree_in engine.old.tree))
        (sections_by settings.now.batch entries.now ends.now))) }
    ensures after { OnOk result
        (after_sections (come_to 0 (tree_in engine.old.tree))
        (sections_by settings.now.batch entries.now ends.now)
        ≡ come_to (length entries.now) (tree_in engine.new.tree)) }
    ensures ticks { OnOk result
        (steps.new ≤ steps.old + sections_cost (tree_in engine.old.tree)
        (sections_by settings.now.batch entries.now ends.now)) }
    ensures lawful { IsLawful (tree_in engine.new.tree) }
    ensures kept { OnOk result (O.faults out.new ≡ O.faults out.old) }
    ensures unfailed { IsErrOf result Stop.Memory → O.faults out.new ≡ O.faults out.old }
    ensures cause { IsErrOf result Stop.Write → Rose (O.faults out.old) (O.faults out.new) }
{
    let mut rest = entries;
    let mut n = 0u64;
    for end in ends {
        let (calls, after) = rest.split_at(end.calls as usize);
        run_section(
            rt, settings, n, engine, calls, end.dumps, out, gate, steps, text,
        )?;
        n += calls.len() as u64;
        rest = after;
    }
    run_section(rt, settings, n, engine, rest, false, out, gate, steps, text)
}

/// Writes what stands at the end of a transcript: the tree, where the settings say so, and the last line. They are
/// offered as one text, for which `text` is room.
///
/// `Memory` where memory is refused, and `Write` only where the sink's count of faults rose. The sink has then
/// taken a front of that text.
pub fn write_ending<O: Sink>(
    settings: &Settings,
    calls: u64,
    tree: &Tree,
    out: &mut O,
    text: &mut Vec<u8>,
) -> Result<(), Stop>
    ensures text { OnOk result
        (Appends (O.taken out.old) (O.taken out.new)
        (ending settings.now.dump (come_to calls (tree_in tree.now)))) }
    ensures front { OnErr result
        (AppendsFront (O.taken out.old) (O.taken out.new)
        (ending settings.now.dump (come_to calls (tree_in tree.now)))) }
    ensures kept { OnOk result (O.faults out.new ≡ O.faults out.old) }
    ensures unfailed { IsErrOf result Stop.Memory → O.faults out.new ≡ O.faults out.old }
    ensures cause { IsErrOf result Stop.Write → Rose (O.faults out.old) (O.faults out.new) }
{
    text.clear();
    print_dump(settings.dump.dumps_end(), tree, text)?;
    print_end(calls, tree.row_count(), text)?;
    write_all(out, text)?;
    Ok(())
}
