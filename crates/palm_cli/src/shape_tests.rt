// The mode `replay`: the shapes that batches leave, of which workers change none.
use super::*;
use crate::tests::ends_as;
use std::alloc::Global;
use std::process::Abort;
use std::test::Fail;

// Appends a prefix and its rate, which are this number, after a blank, for each number of a range.
fn append_pairs(text: &mut String, from: u32, to: u32) -> Result<(), Fail> {
    let alloc = *text.allocator();
    for p in from..=to {
        text.push_str(&format!(in alloc; " {p} {p}")?)?;
    }
    Ok(())
}

// The line of the leaf of such rows, of which there are so many.
fn leaf(alloc: Global, count: u32, from: u32, to: u32) -> Result<String, Fail> {
    let mut line = format!(in alloc; "leaf {count}")?;
    append_pairs(&mut line, from, to)?;
    line.push_str("\n")?;
    Ok(line)
}

// The lines of the leaves of so many rows, from one to another.
fn leaf_lines(alloc: Global, leaves: &[(u32, u32, u32)]) -> Result<String, Fail> {
    let mut lines = String::new(alloc);
    for (count, from, to) in leaves {
        lines.push_str(&leaf(alloc, *count, *from, *to)?)?;
    }
    Ok(lines)
}

// The lines of the full leaves of the tree of 100 to 499.
fn full_leaves(alloc: Global) -> Result<String, Fail> {
    let mut lines = String::new(alloc);
    for i in 0..25u32 {
        let from = 100 + 16 * i;
        lines.push_str(&leaf(alloc, 16, from, from + 15)?)?;
    }
    Ok(lines)
}

// The Sets of the rows of a range.
fn sets(alloc: Global, from: u32, to: u32) -> Result<String, Fail> {
    let mut script = String::new(alloc);
    for row in from..=to {
        script.push_str(&format!(in alloc; "0 set {row} {row}\n")?)?;
    }
    Ok(script)
}

// The Dels of the rows of a range.
fn dels(alloc: Global, from: u32, to: u32) -> Result<String, Fail> {
    let mut script = String::new(alloc);
    for row in from..=to {
        script.push_str(&format!(in alloc; "0 del {row}\n")?)?;
    }
    Ok(script)
}

// The replies to the first Sets, of which there are so many, and this behind each.
fn new_lines(alloc: Global, count: u32, behind: &str) -> Result<String, Fail> {
    let mut lines = String::new(alloc);
    for n in 0..count {
        lines.push_str(&format!(in alloc; "{n} 0 new\n{behind}")?)?;
    }
    Ok(lines)
}

// The replies to the Dels of the rows of a range, whose numbers are `more` above those of the rows.
fn gone_lines(alloc: Global, more: u32, from: u32, to: u32) -> Result<String, Fail> {
    let mut lines = String::new(alloc);
    for row in from..=to {
        let n = row.saturating_add(more);
        lines.push_str(&format!(in alloc; "{n} 0 gone {row}\n")?)?;
    }
    Ok(lines)
}

// A script in batches of at most so many calls gives this transcript, whatever the workers.
fn all_workers_give<R: Threads + Sync + Abort>(
    rt: &R,
    alloc: Global,
    batch: &str,
    script: &str,
    transcript: &str,
) -> Result<(), Fail> {
    for workers in ["--workers=1", "--workers=3", "--workers=64"] {
        let texts = [batch, workers, "replay"];
        ends_as(rt, alloc, &texts, script, 0, transcript, "")?;
    }
    Ok(())
}

// The shape of 34 rows depends on the batches.
#[test]
fn batches_shape_the_tree_and_workers_do_not(rt: HostRuntime) -> Result<(), Fail> {
    let alloc = rt.alloc();
    let sets = sets(alloc, 10, 43)?;
    let script = format!(in alloc; "{sets}dump\n")?;
    let new = new_lines(alloc, 34, "")?;
    let leaves = leaf_lines(alloc, &[(12, 10, 21), (11, 22, 32), (11, 33, 43)])?;
    let together = format!(in alloc; "{new}= 34\ntree 2 34\ninner 3 22 33\n{leaves}end 34 34\n")?;
    all_workers_give(&rt, alloc, "--batch=4096", &script, &together)?;
    let new = new_lines(alloc, 34, "= 1\n")?;
    let leaves = leaf_lines(alloc, &[(9, 10, 18), (9, 19, 27), (16, 28, 43)])?;
    let apart = format!(in alloc; "{new}tree 2 34\ninner 3 19 28\n{leaves}end 34 34\n")?;
    all_workers_give(&rt, alloc, "--batch=1", &script, &apart)
}

// A Del leaves 7 rows in the second leaf, which are set again in the first.
#[test]
fn a_leaf_that_is_too_small_goes(rt: HostRuntime) -> Result<(), Fail> {
    let alloc = rt.alloc();
    let sets = sets(alloc, 10, 26)?;
    let script = format!(in alloc; "{sets}dump\n0 del 26\ndump\n")?;
    let new = new_lines(alloc, 17, "")?;
    let two = leaf_lines(alloc, &[(9, 10, 18), (8, 19, 26)])?;
    let one = leaf(alloc, 16, 10, 25)?;
    let transcript = format!(in alloc;
        "{new}= 17\ntree 2 17\ninner 2 19\n{two}17 0 gone 26\n= 1\ntree 1 16\n{one}end 18 16\n"
    )?;
    all_workers_give(&rt, alloc, "--batch=4096", &script, &transcript)
}

// The first leaf of three goes, and the leaf behind it takes a row that is less than all others.
#[test]
fn the_range_of_a_leaf_widens(rt: HostRuntime) -> Result<(), Fail> {
    let alloc = rt.alloc();
    let (sets, dels) = (sets(alloc, 10, 43)?, dels(alloc, 10, 21)?);
    let script = format!(in alloc; "{sets}dump\n{dels}cut\n0 set 05 5\ndump\n")?;
    let new = new_lines(alloc, 34, "")?;
    let three = leaf_lines(alloc, &[(12, 10, 21), (11, 22, 32), (11, 33, 43)])?;
    let gone = gone_lines(alloc, 24, 10, 21)?;
    let mut wide = String::from_str(alloc, "leaf 12 05 5")?;
    append_pairs(&mut wide, 22, 32)?;
    let last = leaf(alloc, 11, 33, 43)?;
    let transcript = format!(in alloc;
        "{new}= 34\ntree 2 34\ninner 3 22 33\n{three}{gone}= 12\n46 0 new\n= 1\ntree 2 23\ninner 2 33\n{wide}\n{last}end 47 23\n"
    )?;
    all_workers_give(&rt, alloc, "--batch=4096", &script, &transcript)
}

const UPPER_LINES: &str = "tree 3 400
inner 2 308
inner 13 116 132 148 164 180 196 212 228 244 260 276 292
inner 12 324 340 356 372 388 404 420 436 452 468 484
";

// Of a tree of three levels one leaf's rows are left.
#[test]
fn nodes_that_are_too_small_go(rt: HostRuntime) -> Result<(), Fail> {
    let alloc = rt.alloc();
    let (sets, dels) = (sets(alloc, 100, 499)?, dels(alloc, 110, 499)?);
    let script = format!(in alloc; "{sets}dump\n{dels}dump\n")?;
    let new = new_lines(alloc, 400, "")?;
    let full = full_leaves(alloc)?;
    let gone = gone_lines(alloc, 290, 110, 499)?;
    let one = leaf(alloc, 10, 100, 109)?;
    let transcript = format!(in alloc;
        "{new}= 400\n{UPPER_LINES}{full}{gone}= 390\ntree 1 10\n{one}end 790 10\n"
    )?;
    all_workers_give(&rt, alloc, "--batch=4096", &script, &transcript)
}
