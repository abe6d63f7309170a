// The mode `replay`: worked scripts, the faults of streams, and words that are refused.
use super::*;
use palm_script::{MOST_BYTES, MemSink, MemSource, SureSource};
use std::alloc::Global;
use std::process::Abort;
use std::test::Fail;

const SMALL: &str = "0 set 44 1000\n0 get 44\n";

const SMALL_BATCH: &str = "0 0 new\n1 0 value 1000\n= 2\n";

const SMALL_TRANSCRIPT: &str = "0 0 new\n1 0 value 1000\n= 2\nend 2 1\n";

pub fn words(alloc: Global, texts: &[&str]) -> Result<Vec<String>, Fail> {
    let mut all = Vec::new(alloc);
    for text in texts {
        all.push(String::from_str(alloc, text)?)?;
    }
    Ok(all)
}

fn numbers(alloc: Global, number: Option<u64>) -> Result<Vec<u64>, Fail> {
    let mut numbers = Vec::new(alloc);
    if let Some(number) = number {
        numbers.push(number)?;
    }
    Ok(numbers)
}

// A sink with room to spare, whose writes take at most `most` bytes, and of which the write `fail` fails.
pub fn sink(alloc: Global, most: usize, fail: Option<u64>) -> Result<MemSink, Fail> {
    let fails = numbers(alloc, fail)?;
    Ok(MemSink::new(alloc, 200_000, most.max(1), fails)?)
}

// Runs the program on a new engine.
pub fn run<R: Threads + Sync, S: Source, O: Sink, E: Sink>(
    rt: &R,
    alloc: Global,
    words: &Vec<String>,
    src: &mut S,
    out: &mut O,
    err: &mut E,
) -> u8 {
    start::<R, S, O, E, Brand>(rt, alloc, words, src, out, err, Blank::new(1))
}

// Runs the program on an input that is read and written without a fault, and compares the status, what is written
// and what is told.
pub fn ends_as<R: Threads + Sync + Abort>(
    rt: &R,
    alloc: Global,
    texts: &[&str],
    input: &str,
    status: u8,
    out: &str,
    err: &str,
) -> Result<(), Fail> {
    let mut src = SureSource::new(Vec::from_slice(alloc, input.as_bytes())?);
    let mut written = sink(alloc, 7, None)?;
    let mut told = sink(alloc, 100, None)?;
    let all = words(alloc, texts)?;
    let got = run(rt, alloc, &all, &mut src, &mut written, &mut told);
    assert_eq!(rt; got, status, "{input}");
    assert_eq!(rt; written.taken(), out.as_bytes(), "{input}");
    assert_eq!(rt; told.taken(), err.as_bytes(), "{input}");
    Ok(())
}

#[test]
fn scripts_give_their_transcripts(rt: HostRuntime) -> Result<(), Fail> {
    for (script, status, out, err) in [
        ("", 0, "end 0 0\n", ""),
        (
            "0 set 44 5\n0 get 44\n0 del 44\n0 get 44\n0 del 44\n",
            0,
            "0 0 new\n1 0 value 5\n2 0 gone 5\n3 0 absent\n4 0 absent\n= 5\nend 5 0\n",
            "",
        ),
        (
            "# rates\r\n\r\n\t7  set\t0044 007 \r\n63 get 0044",
            0,
            "0 7 new\n1 63 value 7\n= 2\nend 2 1\n",
            "",
        ),
        (
            "0 set 44 5\n0 rate 4a\n",
            3,
            "0 0 new\n= 1\n",
            "palm: line 2 fault 5\n",
        ),
        (
            "0 set 4 1\n# note\n1 get 4\n\n0 set 4a 7\n0 get 4\n",
            3,
            "0 0 new\n1 1 value 1\n= 2\n",
            "palm: line 5 fault 4\n",
        ),
        ("64 get 4\n", 3, "", "palm: line 1 fault 1\n"),
        (
            "0 set 44 1000\n0 rate 442079460000\n",
            0,
            "0 0 new\n1 0 44 1000\n= 2\nend 2 1\n",
            "",
        ),
        (
            "0 set 1 1\n0 set 10 2\n0 set 100 3\n0 set 1000 4\n0 rate 1001\n0 set 10 7\n0 list 5 4 10\n",
            0,
            "0 0 new\n1 0 new\n2 0 new\n3 0 new\n4 0 100 3\n5 0 was 2\n6 0 rows 0\n= 7\nend 7 4\n",
            "",
        ),
        (
            "0 set 123456789012345 7\n0 rate 123456789012345\n0 set 1234567890123456 7\n",
            3,
            "0 0 new\n1 0 123456789012345 7\n= 2\n",
            "palm: line 3 fault 4\n",
        ),
        (
            "0 set 123456789012345 7\n0 rate 123456789012345\n0 rate 1234567890123456\n",
            3,
            "0 0 new\n1 0 123456789012345 7\n= 2\n",
            "palm: line 3 fault 5\n",
        ),
    ] {
        ends_as(&rt, rt.alloc(), &["replay"], script, status, out, err)?;
    }
    Ok(())
}

#[test]
fn rates_and_lists_are_served(rt: HostRuntime) -> Result<(), Fail> {
    let sets = "0 set 4 1\n0 set 44 5\n0 set 441 8\n0 set 45 9\n";
    let new = "0 0 new\n1 0 new\n2 0 new\n3 0 new\n";
    let alloc = rt.alloc();
    for (asks, answers) in [
        ("0 rate 4420", "44 5"),
        ("0 rate 441", "441 8"),
        ("0 rate 9", "absent"),
        ("0 list 4 45 2", "rows 2 4 1 44 5"),
        ("0 list 44 99 1000", "rows 3 44 5 441 8 45 9"),
        ("0 list 45 4 1000", "rows 0"),
    ] {
        let script = format!(in alloc; "{sets}{asks}\n")?;
        let transcript = format!(in alloc; "{new}4 0 {answers}\n= 5\nend 5 4\n")?;
        ends_as(&rt, alloc, &["replay"], &script, 0, &transcript, "")?;
    }
    Ok(())
}

// The texts behind one another.
fn joined(alloc: Global, texts: &[&str]) -> Result<String, Fail> {
    let mut all = String::new(alloc);
    for text in texts {
        all.push_str(text)?;
    }
    Ok(all)
}

// Sections, and the dumps that a line or an option asks for.
#[test]
fn cuts_and_dumps(rt: HostRuntime) -> Result<(), Fail> {
    let alloc = rt.alloc();
    let one = "0 set 1 1\ndump\ncut\ncut\ndump\n";
    let two = "0 set 1 1\n5 get 1\ncut\n0 del 1\n5 get 1\n";
    let shape = "tree 1 1\nleaf 1 1 1\n";
    let empty = "tree 1 0\nleaf 0\n";
    let first = "0 0 new\n1 5 value 1\n= 2\n";
    let second = "2 0 gone 1\n3 5 absent\n= 2\n";
    let single = "0 0 new\n= 1\n1 5 value 1\n= 1\n2 0 gone 1\n= 1\n3 5 absent\n= 1\n";
    let set = "0 0 new\n= 1\n";
    let cases: [(&str, &str, &[&str]); 9] = [
        ("--dump=none", "", &["end 0 0\n"]),
        ("--dump=end", "", &[empty, "end 0 0\n"]),
        ("--dump=all", "", &["end 0 0\n"]),
        ("--dump=none", one, &[set, shape, shape, "end 1 1\n"]),
        ("--dump=end", one, &[set, shape, shape, shape, "end 1 1\n"]),
        ("--dump=all", one, &[set, shape, shape, shape, "end 1 1\n"]),
        ("--dump=none", two, &[first, second, "end 4 0\n"]),
        (
            "--dump=all",
            two,
            &[first, shape, second, empty, "end 4 0\n"],
        ),
        ("--batch=1", two, &[single, "end 4 0\n"]),
    ];
    for (options, script, texts) in cases {
        let transcript = joined(alloc, texts)?;
        ends_as(&rt, alloc, &["replay", options], script, 0, &transcript, "")?;
    }
    Ok(())
}

// A write takes all that it is offered, so that each text is one write: that of a batch, a dump that a line asks
// for, another batch, and what stands at the end. A fifth write, which would fail, isn't made.
#[test]
fn texts_are_offered_whole(rt: HostRuntime) -> Result<(), Fail> {
    let alloc = rt.alloc();
    let all = words(alloc, &["replay", "--dump", "end"])?;
    let shape = "tree 1 1\nleaf 1 4 1\n";
    let texts = [
        ("0 0 new\n= 1\n", 5, "palm: write fault\n"),
        (shape, 5, "palm: write fault\n"),
        ("1 0 value 1\n= 1\n", 5, "palm: write fault\n"),
        ("tree 1 1\nleaf 1 4 1\nend 2 1\n", 5, "palm: write fault\n"),
        ("", 0, ""),
    ];
    let mut taken = String::new(alloc);
    for (number, (text, status, told)) in texts.iter().enumerate() {
        let mut src = SureSource::new(Vec::from_slice(alloc, b"0 set 4 1\ndump\n0 get 4\n")?);
        let mut out = sink(alloc, 1_000, Some(number as u64))?;
        let mut err = sink(alloc, 100, None)?;
        let got = run(&rt, alloc, &all, &mut src, &mut out, &mut err);
        assert_eq!(rt; got, *status, "write {number}");
        assert_eq!(rt; out.taken(), taken.as_bytes(), "write {number}");
        assert_eq!(rt; err.taken(), told.as_bytes(), "write {number}");
        taken.push_str(text)?;
    }
    Ok(())
}

// 65,536 comments of 1,024 bytes with their ends, which are as much as is taken, and this behind them.
fn largest(alloc: Global, behind: &str) -> Result<Vec<u8>, Fail> {
    let mut line = vec![in alloc; b'#'; 1_023]?;
    line.push(b'\n')?;
    let mut bytes = Vec::with_capacity(alloc, MOST_BYTES + 1)?;
    for _ in 0..65_536 {
        bytes.extend_from_slice(&line)?;
    }
    bytes.extend_from_slice(behind.as_bytes())?;
    Ok(bytes)
}

#[test]
fn the_largest_source(rt: HostRuntime) -> Result<(), Fail> {
    let alloc = rt.alloc();
    let all = words(alloc, &["replay"])?;
    for (more, status, transcript, line_told) in [
        ("", 0, "end 0 0\n", ""),
        ("#", 7, "", "palm: input too long\n"),
    ] {
        let mut src = SureSource::new(largest(alloc, more)?);
        let mut out = sink(alloc, 100, None)?;
        let mut err = sink(alloc, 100, None)?;
        let got = run(&rt, alloc, &all, &mut src, &mut out, &mut err);
        assert_eq!(rt; got, status);
        assert_eq!(rt; out.taken(), transcript.as_bytes());
        assert_eq!(rt; err.taken(), line_told.as_bytes());
    }
    Ok(())
}

#[test]
fn other_words_are_refused(rt: HostRuntime) -> Result<(), Fail> {
    let cases: [&[&str]; 6] = [
        &[""],
        &["Replay"],
        &["replay", "replay"],
        &["replay", "--batch", "0"],
        &["replay", "--batch=4", "--batch=5"],
        &["--help"],
    ];
    for texts in cases {
        ends_as(&rt, rt.alloc(), texts, SMALL, 2, "", "palm: usage\n")?;
    }
    Ok(())
}

// The reads give 5 bytes each, so that the first line has ended after the third read and the second after the fifth.
#[test]
fn each_read_fails_in_turn(rt: HostRuntime) -> Result<(), Fail> {
    let alloc = rt.alloc();
    let all = words(alloc, &["replay"])?;
    for (number, status, taken, told) in [
        (0, 4, "", "palm: read fault\n"),
        (1, 4, "", "palm: read fault\n"),
        (2, 4, "", "palm: read fault\n"),
        (3, 4, "0 0 new\n= 1\n", "palm: read fault\n"),
        (4, 4, "0 0 new\n= 1\n", "palm: read fault\n"),
        (5, 4, SMALL_BATCH, "palm: read fault\n"),
        (6, 0, SMALL_TRANSCRIPT, ""),
    ] {
        let mut fails = Vec::new(alloc);
        fails.push(number)?;
        let mut src = MemSource::new(Vec::from_slice(alloc, SMALL.as_bytes())?, 5, fails);
        let mut out = sink(alloc, 100, None)?;
        let mut err = sink(alloc, 100, None)?;
        let got = run(&rt, alloc, &all, &mut src, &mut out, &mut err);
        assert_eq!(rt; got, status, "read {number}");
        assert_eq!(rt; out.taken(), taken.as_bytes(), "read {number}");
        assert_eq!(rt; err.taken(), told.as_bytes(), "read {number}");
    }
    Ok(())
}

// The writes take 10 bytes each: three for the batch, and one for the last line.
#[test]
fn each_write_fails_in_turn(rt: HostRuntime) -> Result<(), Fail> {
    let alloc = rt.alloc();
    let all = words(alloc, &["replay"])?;
    for (number, status, taken, told) in [
        (0, 5, 0, "palm: write fault\n"),
        (1, 5, 10, "palm: write fault\n"),
        (2, 5, 20, "palm: write fault\n"),
        (3, 5, 27, "palm: write fault\n"),
        (4, 0, 35, ""),
    ] {
        let mut src = SureSource::new(Vec::from_slice(alloc, SMALL.as_bytes())?);
        let mut out = sink(alloc, 10, Some(number))?;
        let mut err = sink(alloc, 100, None)?;
        let got = run(&rt, alloc, &all, &mut src, &mut out, &mut err);
        assert_eq!(rt; got, status, "write {number}");
        assert_eq!(rt;
            out.taken(),
            SMALL_TRANSCRIPT.as_bytes().get(..taken).unwrap_or(b""),
            "write {number}"
        );
        assert_eq!(rt; err.taken(), told.as_bytes(), "write {number}");
    }
    Ok(())
}

// Of reads of 12 bytes the third fails, in the third line. Of writes of 4 bytes the second fails, in the first.
#[test]
fn a_fault_leaves_what_came_before_it(rt: HostRuntime) -> Result<(), Fail> {
    let alloc = rt.alloc();
    let all = words(alloc, &["replay"])?;
    for (script, read, write, status, taken, told) in [
        (
            "0 set 4 1\n0 set 5 2\n0 set 6 3\n",
            Some(2),
            None,
            4,
            "0 0 new\n1 0 new\n= 2\n",
            "palm: read fault\n",
        ),
        (
            "0 set 44 1000\n0 rate 442079460000\n",
            None,
            Some(1),
            5,
            "0 0 ",
            "palm: write fault\n",
        ),
    ] {
        let bytes = Vec::from_slice(alloc, script.as_bytes())?;
        let mut src = MemSource::new(bytes, 12, numbers(alloc, read)?);
        let mut out = sink(alloc, 4, write)?;
        let mut err = sink(alloc, 100, None)?;
        let got = run(&rt, alloc, &all, &mut src, &mut out, &mut err);
        assert_eq!(rt; got, status, "{script}");
        assert_eq!(rt; out.taken(), taken.as_bytes(), "{script}");
        assert_eq!(rt; err.taken(), told.as_bytes(), "{script}");
    }
    Ok(())
}

// All options, each as two words. What one asks for is given in the modes that have a use for it.
#[test]
fn each_option_may_be_two_words(rt: HostRuntime) -> Result<(), Fail> {
    let replies =
        "0 0 new\n= 1\ntree 1 1\nleaf 1 4 1\n1 0 value 1\n= 1\ntree 1 1\nleaf 1 4 1\nend 2 1\n";
    for (mode, input, out) in [
        ("replay", "0 set 4 1\n0 get 4\n", replies),
        (
            "deck",
            "op,prefix,rate\nset,4,1\n",
            "op,prefix,rate\nset,4,1\n",
        ),
        ("gen", "", "calls 1\nrows 0\nlevels 1\nhits 0\nsum 0\n"),
    ] {
        let texts = [
            mode,
            "--batch",
            "1",
            "--workers",
            "2",
            "--window",
            "64",
            "--dump",
            "all",
            "--seed",
            "0",
            "--calls",
            "1",
        ];
        ends_as(&rt, rt.alloc(), &texts, input, 0, out, "")?;
    }
    Ok(())
}

#[test]
fn the_largest_batch(rt: HostRuntime) -> Result<(), Fail> {
    let alloc = rt.alloc();
    let mut script = String::new(alloc);
    let mut transcript = String::new(alloc);
    for n in 0..65_536u32 {
        script.push_str("0 get 4\n")?;
        transcript.push_str(&format!(in alloc; "{n} 0 absent\n")?)?;
    }
    transcript.push_str("= 65536\nend 65536 0\n")?;
    let all = words(alloc, &["replay", "--batch", "65536"])?;
    let mut src = SureSource::new(Vec::from_slice(alloc, script.as_bytes())?);
    let mut out = MemSink::new(alloc, 2_000_000, 2_000_000, Vec::new(alloc))?;
    let mut err = sink(alloc, 100, None)?;
    let got = run(&rt, alloc, &all, &mut src, &mut out, &mut err);
    assert_eq!(rt; got, 0);
    assert!(rt; out.taken() == transcript.as_bytes(), "65,536 replies");
    Ok(())
}

#[test]
fn a_full_sink_is_a_write_fault(rt: HostRuntime) -> Result<(), Fail> {
    let alloc = rt.alloc();
    let all = words(alloc, &["replay"])?;
    let mut src = SureSource::new(Vec::from_slice(alloc, SMALL.as_bytes())?);
    let mut out = MemSink::new(alloc, 24, 100, Vec::new(alloc))?;
    let mut err = sink(alloc, 100, None)?;
    assert_eq!(rt; run(&rt, alloc, &all, &mut src, &mut out, &mut err), 5);
    assert_eq!(rt; out.taken().len(), 24);
    Ok(())
}

#[test]
fn faults_of_the_error_stream_change_nothing(rt: HostRuntime) -> Result<(), Fail> {
    let alloc = rt.alloc();
    let all = words(alloc, &["replay"])?;
    let script = b"0 set 4 1\n0 rate x\n";
    let mut src = SureSource::new(Vec::from_slice(alloc, script)?);
    let mut out = sink(alloc, 100, None)?;
    let mut err = sink(alloc, 100, Some(0))?;
    assert_eq!(rt; run(&rt, alloc, &all, &mut src, &mut out, &mut err), 3);
    assert_eq!(rt; out.taken(), b"0 0 new\n= 1\n".as_slice());
    assert_eq!(rt; err.taken(), b"".as_slice());
    Ok(())
}
