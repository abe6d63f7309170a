//! The program `palm_bench KIND COUNT BATCH WORKERS`: runs calls on a table in batches, and prints a line of what
//! came of them, for measurements beside `bench/map.rs`, which makes the same calls on an ordinary map.
#![tactic(auto)]

mod feed;
mod plan;
mod run;
#[cfg(test)]
mod tests;
mod words;

use crate::plan::Plan;
use crate::run::{Outcome, run};
use std::env;
use std::marker::Brand;
use std::process::ExitCode;
use std::sync::ledger::Blank;

/// The exit status where the words aren't of the form.
const USAGE: u8 = 2;

/// The exit status where the line can't be written.
const WRITE_FAULT: u8 = 5;

/// The exit status where memory was refused.
const NO_MEMORY: u8 = 6;

// What the program's words plan. `None` where they are not of the form.
fn planned(rt: &HostRuntime) -> Option<Plan> {
    let words: Vec<String> = env::args(rt).ok()?.skip(1).collect(rt.alloc()).ok()?;
    words::read(&words)
}

fn main(rt: HostRuntime) -> ExitCode {
    let Some(plan) = planned(&rt) else {
        let _ = eprintln!(rt; "palm_bench: KIND COUNT BATCH WORKERS");
        return ExitCode::from(USAGE);
    };
    let Ok(outcome) = run::<_, Brand>(&rt, rt.alloc(), plan, Blank::new(1)) else {
        let _ = eprintln!(rt; "palm_bench: no memory");
        return ExitCode::from(NO_MEMORY);
    };
    let Outcome { rows, levels, sum } = outcome;
    match println!(rt; "rows {rows} levels {levels} sum {sum:016x}") {
        Ok(()) => ExitCode::SUCCESS,
        Err(_) => ExitCode::from(WRITE_FAULT),
    }
}
