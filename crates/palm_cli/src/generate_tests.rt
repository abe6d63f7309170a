// The mode `gen`: worked summaries, with workers of all numbers, and the faults of its sink.
use crate::tests::{ends_as, run, sink, words};
use palm_script::MemSource;
use std::test::Fail;

// The first call of seed 0 rates a number, which the empty table hasn't.
#[test]
fn calls_are_summed_up(rt: HostRuntime) -> Result<(), Fail> {
    for (calls, summary) in [
        ("0", "calls 0\nrows 0\nlevels 1\nhits 0\nsum 0\n"),
        ("1", "calls 1\nrows 0\nlevels 1\nhits 0\nsum 0\n"),
        (
            "100000",
            "calls 100000\nrows 30587\nlevels 5\nhits 11766\nsum 33483250142170\n",
        ),
    ] {
        let texts = ["gen", "--seed", "0", "--calls", calls];
        ends_as(&rt, rt.alloc(), &texts, "not read", 0, summary, "")?;
    }
    Ok(())
}

#[test]
fn workers_change_no_summary(rt: HostRuntime) -> Result<(), Fail> {
    let summary = "calls 200000\nrows 55975\nlevels 5\nhits 23951\nsum 70358265682522\n";
    for workers in ["1", "8"] {
        let texts = ["gen", "--calls", "200000", "--workers", workers];
        ends_as(&rt, rt.alloc(), &texts, "", 0, summary, "")?;
    }
    Ok(())
}

// The source would fail at its first read, and the writes take 20 bytes each.
#[test]
fn gen_reads_nothing_and_each_of_its_writes_fails_in_turn(rt: HostRuntime) -> Result<(), Fail> {
    let alloc = rt.alloc();
    let all = words(alloc, &["gen", "--calls=0"])?;
    let summary = "calls 0\nrows 0\nlevels 1\nhits 0\nsum 0\n";
    for (number, status, taken, told) in [
        (0, 5, 0, "palm: write fault\n"),
        (1, 5, 20, "palm: write fault\n"),
        (2, 0, 37, ""),
    ] {
        let mut fails = Vec::new(alloc);
        fails.push(0)?;
        let mut src = MemSource::new(Vec::new(alloc), 5, fails);
        let mut out = sink(alloc, 20, Some(number))?;
        let mut err = sink(alloc, 100, None)?;
        let got = run(&rt, alloc, &all, &mut src, &mut out, &mut err);
        assert_eq!(rt; got, status, "write {number}");
        let front = summary.as_bytes().get(..taken).unwrap_or(b"");
        assert_eq!(rt; out.taken(), front, "write {number}");
        assert_eq!(rt; err.taken(), told.as_bytes(), "write {number}");
    }
    Ok(())
}
