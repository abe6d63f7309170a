// The mode `replay`: a script is read, run in the order of its lines, and its transcript written.
ghost use Rattle.std.specs.Prelude.{◌≡◌, ◌+◌, ◌≤◌, [], length, sum_by, IfOk, OnOk, OnErr, IsErrOf};
ghost use Rattle.std.specs.Io.KnownBytes.{Appends};
ghost use Rattle.std.proofs.Common.{zero};
ghost use Rattle.palm_base.specs.Lawful.{IsLawful};
ghost use Rattle.palm_tree.specs.TreeValue.{tree_in};
ghost use Rattle.palm_script.specs.Causes.{Rose};
ghost use Rattle.palm_script.specs.Transcript.{after_run, sections_by};
ghost use Rattle.palm_words.specs.Settings.{AreWithin};
ghost use Rattle.palm_cli.specs.Costs.{run_cost};
ghost use Rattle.palm_words.specs.declared.settings.Mode.{Mode};
ghost use Rattle.palm_cli.specs.Ends.{EndsIn};
ghost use Rattle.palm_cli.specs.Reads.{IsReadFrom, IsScript};
ghost use Rattle.palm_cli.specs.Stops.{ended_by};
ghost use Rattle.palm_cli.specs.Streams.{AppendsFront, text_to};

use crate::run::{run_sections, write_ending};
use crate::status::Status;
use crate::stop::Stop;
use palm_base::{NoMemory, Steps};
use palm_engine::Engine;
use palm_script::{
    InputEnd, LineFault, MOST_BYTES, Script, Sink, Source, laws, read_input, read_script,
};
use palm_share::Gate;
use palm_words::Settings;
use std::alloc::Global;
use std::sync::ledger::Ledger;
use std::thread::Threads;

// A script that was read, and how the program ends where all of it is run.
#[derive(Drop)]
struct ReadScript {
    script: Script,
    end: Status,
}

// How the program ends where all was run that was read of a script.
fn end_by(fault: Option<LineFault>, end: InputEnd) -> Status
    ensures { result ≡ ended_by fault end }
{
    match (fault, end) {
        (Some(fault), _) => Status::BadLine(fault),
        (None, InputEnd::Whole) => Status::Done,
        (None, InputEnd::Failed) => Status::ReadFault,
        (None, InputEnd::Long) => Status::TooLong,
    }
}

// Reads a script. Its bytes are given back at once, since what they say is all that is run.
fn read_lines<S: Source>(alloc: Global, src: &mut S) -> Result<ReadScript, NoMemory>
    ensures ok { IfOk result
        (IsScript (S.left src.old) (S.left src.new) (S.faults src.old) (S.faults src.new)) }
    ensures err { OnErr result (IsReadFrom (S.left src.old) (S.left src.new)) }
    ensures few { IfOk result (λ read. length read.script.entries.items ≤ MOST_BYTES) }
    ensures within { IfOk result (λ read.
        sum_by (λ end. end.calls) read.script.ends.items ≤ length read.script.entries.items) }
{
    let input = read_input(alloc, src)?;
    let script = read_script(alloc, &input.bytes, input.end.is_whole())?;
    let end = end_by(script.fault, input.end);
    Ok(ReadScript { script, end })
}

// Runs a script on a new engine, and writes its transcript, with what stands at the end where it is finished.
fn run_script<R: Threads + Sync, O: Sink, G: Gate + Sync, L: Ledger>(
    rt: &R,
    alloc: Global,
    settings: &Settings,
    engine: &mut Engine,
    script: &Script,
    finished: bool,
    out: &mut O,
    gate: &G,
    steps: &mut Steps<L>,
) -> Result<(), Stop>
    requires settings { AreWithin settings.now }
    requires new { tree_in engine.old.tree ≡ (zero, []) }
    requires few { length script.now.entries.items ≤ MOST_BYTES }
    requires within { sum_by (λ end. end.calls) script.now.ends.items ≤ length script.now.entries.items }
    ensures text { OnOk result
        (Appends (O.taken out.old) (O.taken out.new)
        (text_to settings.now.dump finished
        (sections_by settings.now.batch script.now.entries.items
        script.now.ends.items))) }
    ensures front { OnErr result
        (AppendsFront (O.taken out.old) (O.taken out.new)
        (text_to settings.now.dump finished
        (sections_by settings.now.batch script.now.entries.items
        script.now.ends.items))) }
    ensures tree { OnOk result
        (tree_in engine.new.tree
        ≡ (after_run (sections_by settings.now.batch script.now.entries.items
        script.now.ends.items)).tree) }
    ensures ticks { OnOk result
        (steps.new ≤ steps.old + run_cost
        (sections_by settings.now.batch script.now.entries.items script.now.ends.items)) }
    ensures lawful { IsLawful (tree_in engine.new.tree) }
    ensures kept { OnOk result (O.faults out.new ≡ O.faults out.old) }
    ensures unfailed { IsErrOf result Stop.Memory → O.faults out.new ≡ O.faults out.old }
    ensures cause { IsErrOf result Stop.Write → Rose (O.faults out.old) (O.faults out.new) }
{
    let mut text = Vec::new(alloc);
    run_sections(
        rt,
        settings,
        engine,
        &script.entries,
        &script.ends,
        out,
        gate,
        steps,
        &mut text,
    )?;
    if !finished {
        return Ok(());
    }
    let calls = script.entries.len() as u64;
    write_ending(settings, calls, &engine.tree, out, &mut text)
}

/// Reads a script, runs it on a new engine and writes its transcript.
pub fn replay<R: Threads + Sync, S: Source, O: Sink, G: Gate + Sync, L: Ledger>(
    rt: &R,
    alloc: Global,
    settings: &Settings,
    engine: &mut Engine,
    src: &mut S,
    out: &mut O,
    gate: &G,
    steps: &mut Steps<L>,
) -> Status
    requires settings { AreWithin settings.now }
    requires new { tree_in engine.old.tree ≡ (zero, []) }
    ensures end { EndsIn Mode.Replay settings.now result
        (record {
          left = S.left src.old;
          rest = S.left src.new;
          taken = O.taken out.old;
          now = O.taken out.new;
          reads_before = S.faults src.old;
          reads_now = S.faults src.new;
          writes_before = O.faults out.old;
          writes_now = O.faults out.new;
          steps_before = steps.old;
          steps_now = steps.new;
        })
        (tree_in engine.new.tree) }
    ensures lawful { IsLawful (tree_in engine.new.tree) }
{
    laws::faults_stand();
    let Ok(read) = read_lines(alloc, src) else {
        return Status::NoMemory;
    };
    let finished = read.end.is_done();
    if let Err(stop) = run_script(
        rt,
        alloc,
        settings,
        engine,
        &read.script,
        finished,
        out,
        gate,
        steps,
    ) {
        return Status::from(stop);
    }
    read.end
}
