//! The program `palm`: keeps a rating table, and replays scripts of calls on it, edits it by decks and measures it
//! by generated calls.
#![tactic(auto)]

mod batch;
mod deck;
#[cfg(test)]
mod deck_tests;
#[cfg(test)]
mod gate_tests;
mod generate;
#[cfg(test)]
mod generate_tests;
mod palm;
mod replay;
mod run;
#[cfg(test)]
mod shape_tests;
mod status;
mod stop;
#[cfg(test)]
mod tests;

ghost use Rattle.std.specs.Prelude.{◌≡◌, ◌<◌};

use crate::status::Status;
use palm_base::{NoMemory, Steps};
use palm_engine::Engine;
use palm_script::{Sink, Source, StdSink, StdSource};
use palm_share::OpenGate;
use std::alloc::Global;
use std::env;
use std::io::ErrorKind;
use std::marker::Brand;
use std::process::ExitCode;
use std::sync::ledger::{Blank, Ledger};
use std::thread::Threads;

// The words after the program's name. Where one of them is no text there are none, which is wrong usage.
fn words_of(rt: &HostRuntime) -> Result<Vec<String>, NoMemory> {
    match env::args(rt) {
        Ok(args) => Ok(args.skip(1).collect(rt.alloc())?),
        Err(error) if error.kind() == ErrorKind::OutOfMemory => Err(NoMemory),
        Err(_) => Ok(Vec::new(rt.alloc())),
    }
}

// Runs the program on a new engine, with a counter of its own.
fn start<R: Threads + Sync, S: Source, O: Sink, E: Sink, L: Ledger>(
    rt: &R,
    alloc: Global,
    words: &Vec<String>,
    src: &mut S,
    out: &mut O,
    err: &mut E,
    blank: Blank,
) -> u8
    requires blank_name { blank.name ≡ L.name }
    requires blank_parts { blank.parts ≡ L.parts }
    requires blank { 0 < blank.parts }
{
    let mut steps = Steps::<L>::new(blank);
    let Ok(mut engine) = Engine::new(alloc) else {
        return status::tell(alloc, err, Status::NoMemory).code();
    };
    palm::palm(
        rt,
        alloc,
        words,
        &mut engine,
        src,
        out,
        err,
        &OpenGate,
        &mut steps,
    )
}

fn main(rt: HostRuntime) -> ExitCode {
    let mut err = StdSink::new(rt.stderr());
    let Ok(words) = words_of(&rt) else {
        return ExitCode::from(status::tell(rt.alloc(), &mut err, Status::NoMemory).code());
    };
    let mut src = StdSource::new(rt.stdin());
    let mut out = StdSink::new(rt.stdout());
    let blank = Blank::new(1);
    let code = start::<_, _, _, _, Brand>(
        &rt,
        rt.alloc(),
        &words,
        &mut src,
        &mut out,
        &mut err,
        blank,
    );
    ExitCode::from(code)
}
