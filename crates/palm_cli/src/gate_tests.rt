// The gate, which the driver passes before each batch in all modes.
ghost use Rattle.std.specs.Prelude.{◌≡◌, ◌<◌};

use super::*;
use crate::tests::{sink, words};
use palm_base::NoMemory;
use palm_script::{MemSink, NullSink, SureSource};
use palm_share::{Gate, Who};
use std::alloc::Global;
use std::sync::atomic::{AtomicU64, Ordering};
use std::test::Fail;

// Counts the passes of workers and of the driver, and of the driver's those before which no worker has passed. It
// adds up the numbers that the driver passes with.
#[derive(Drop)]
struct Passes {
    workers: AtomicU64,
    driver: AtomicU64,
    early: AtomicU64,
    sum: AtomicU64,
}

impl Gate for Passes {
    fn pass(&self, who: Who, turn: u64) {
        if who != Who::Driver {
            self.workers.fetch_add(1, Ordering::SeqCst);
            return;
        }
        self.driver.fetch_add(1, Ordering::SeqCst);
        self.sum.fetch_add(turn, Ordering::SeqCst);
        if self.workers.load(Ordering::SeqCst) == 0 {
            self.early.fetch_add(1, Ordering::SeqCst);
        }
    }
}

// Runs the program on a new engine, with a gate.
fn run_gated<R: Threads + Sync, G: Gate + Sync, L: Ledger>(
    rt: &R,
    alloc: Global,
    words: &Vec<String>,
    src: &mut SureSource,
    out: &mut MemSink,
    gate: &G,
    blank: Blank,
) -> Result<u8, NoMemory>
    requires blank_name { blank.name ≡ L.name }
    requires blank_parts { blank.parts ≡ L.parts }
    requires blank { 0 < blank.parts }
{
    let mut steps = Steps::<L>::new(blank);
    let mut engine = Engine::new(alloc)?;
    let mut err = NullSink;
    Ok(palm::palm(
        rt,
        alloc,
        words,
        &mut engine,
        src,
        out,
        &mut err,
        gate,
        &mut steps,
    ))
}

// The status of the words on an input, with a counter of its own.
fn end_gated<R: Threads + Sync, G: Gate + Sync>(
    rt: &R,
    alloc: Global,
    texts: &[&str],
    input: &str,
    gate: &G,
) -> Result<u8, Fail> {
    let mut src = SureSource::new(Vec::from_slice(alloc, input.as_bytes())?);
    let mut out = sink(alloc, 1_000, None)?;
    let all = words(alloc, texts)?;
    let status = run_gated::<R, G, Brand>(
        rt,
        alloc,
        &all,
        &mut src,
        &mut out,
        gate,
        Blank::new(1),
    )?;
    Ok(status)
}

// Three calls are two batches, of which the first call is the call 0 and the call 2.
#[test]
fn the_driver_passes_before_each_batch(rt: HostRuntime) -> Result<(), Fail> {
    for (mode, input) in [
        ("replay", "0 set 4 1\n0 get 4\n0 get 5\n"),
        ("deck", "op,prefix,rate\nset,4,1\nset,5,1\ndel,4,\n"),
        ("gen", ""),
    ] {
        let gate = Passes {
            workers: AtomicU64::new(0),
            driver: AtomicU64::new(0),
            early: AtomicU64::new(0),
            sum: AtomicU64::new(0),
        };
        let texts = [mode, "--batch=2", "--calls=3"];
        let got = end_gated(&rt, rt.alloc(), &texts, input, &gate)?;
        assert_eq!(rt; got, 0, "{mode}");
        assert_eq!(rt; gate.driver.load(Ordering::SeqCst), 2, "{mode}");
        assert_eq!(rt; gate.early.load(Ordering::SeqCst), 1, "{mode}");
        assert_eq!(rt; gate.sum.load(Ordering::SeqCst), 2, "{mode}");
    }
    Ok(())
}
