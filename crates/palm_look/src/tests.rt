// Which look-ups are answered before their batch, and which are left to it.
ghost use Rattle.std.specs.Prelude.{◌≤◌};
ghost use Rattle.palm_base.specs.Table.{IsTable};
ghost use Rattle.palm_share.specs.declared.share.TheConstants.{MOST_WORKERS};

use super::*;
use palm_base::{Amount, Call, Digits, Entry, Limit, NoMemory, Reply, Row, RowList};
use palm_share::{MOST_WORKERS, OpenGate};
use palm_tree::Tree;
use std::alloc::Global;
use std::process::Abort;
use std::test::Fail;
use std::thread::Threads;

fn digits(rt: &impl Abort, text: &str) -> Digits {
    Digits::read(text.as_bytes()).expect(rt, "a prefix")
}

fn rate_of(rt: &impl Abort, value: u64) -> Amount {
    Amount::new(value).expect(rt, "a rate")
}

fn set(rt: &impl Abort, prefix: &str) -> Call {
    let (prefix, rate) = (digits(rt, prefix), rate_of(rt, 9));
    Call::Set { prefix, rate }
}

fn del(rt: &impl Abort, prefix: &str) -> Call {
    let prefix = digits(rt, prefix);
    Call::Del { prefix }
}

fn get(rt: &impl Abort, prefix: &str) -> Call {
    let prefix = digits(rt, prefix);
    Call::Get { prefix }
}

fn rate(rt: &impl Abort, number: &str) -> Call {
    let number = digits(rt, number);
    Call::Rate { number }
}

fn list(rt: &impl Abort, from: &str, to: &str, limit: u32) -> Call {
    let (from, to) = (digits(rt, from), digits(rt, to));
    let limit = Limit::new(limit).expect(rt, "a limit");
    Call::List { from, to, limit }
}

fn assert_rise(rt: &impl Abort, rows: &[Row])
    ensures { IsTable rows.now }
{
    for i in 1..rows.len() {
        assert!(rt; rows[i - 1].prefix.key() < rows[i].prefix.key());
    }
}

// The tree of 4, 44, 441, 45, 451 and 7, each at 5.
fn table(rt: &impl Abort, alloc: Global) -> Result<Tree, Fail> {
    let mut rows = RowList::new(alloc);
    for text in ["4", "44", "441", "45", "451", "7"] {
        let (prefix, rate) = (digits(rt, text), rate_of(rt, 5));
        rows.push(Row { prefix, rate })?;
    }
    assert_rise(rt, rows.as_slice());
    Ok(Tree::build(alloc, &rows)?)
}

// Which of two calls are left to their batch.
fn left_open<R: Threads + Sync>(
    rt: &R,
    tree: &Tree,
    calls: [Call; 2],
    workers: u32,
) -> Result<Vec<bool>, NoMemory>
    requires some { 1 ≤ workers }
    requires few { workers ≤ MOST_WORKERS }
{
    let batch = calls.map(|call| Entry {
        caller: 0,
        place: 0,
        call,
    });
    let mut open = Vec::new(tree.arena.allocator());
    for known in answer_unmet(rt, tree, &batch, workers, &OpenGate)? {
        open.push(known.is_none())?;
    }
    Ok(open)
}

#[test]
fn a_look_up_is_left_to_its_batch_exactly_where_an_edit_meets_it(
    rt: HostRuntime,
) -> Result<(), Fail> {
    let cases: [(Call, Call, bool); 20] = [
        (set(&rt, "44"), get(&rt, "44"), true),
        (del(&rt, "44"), get(&rt, "44"), true),
        (del(&rt, "441"), get(&rt, "44"), false),
        (set(&rt, "5"), get(&rt, "6"), false),
        // 441 is hit: longer fronts and itself meet the Rate, shorter fronts and other prefixes don't.
        (set(&rt, "4419"), rate(&rt, "44190"), true),
        (del(&rt, "441"), rate(&rt, "44190"), true),
        (set(&rt, "44"), rate(&rt, "44190"), false),
        (set(&rt, "4418"), rate(&rt, "44190"), false),
        (set(&rt, "441900"), rate(&rt, "44190"), false),
        // Nothing is hit, so that each front meets it.
        (set(&rt, "9"), rate(&rt, "98"), true),
        (set(&rt, "8"), rate(&rt, "98"), false),
        // The limit is reached at 441.
        (del(&rt, "441"), list(&rt, "44", "451", 2), true),
        (set(&rt, "440"), list(&rt, "44", "451", 2), true),
        (set(&rt, "442"), list(&rt, "44", "451", 2), false),
        (set(&rt, "43"), list(&rt, "44", "451", 2), false),
        // It isn't, so that all up to 451 counts.
        (set(&rt, "442"), list(&rt, "44", "451", 9), true),
        (del(&rt, "451"), list(&rt, "44", "451", 9), true),
        (set(&rt, "4510"), list(&rt, "44", "451", 9), false),
        (set(&rt, "43"), list(&rt, "44", "451", 9), false),
        (set(&rt, "45"), list(&rt, "451", "44", 9), false),
    ];
    let tree = table(&rt, rt.alloc())?;
    for (edit, look, met) in cases {
        let before = left_open(&rt, &tree, [edit, look], 1)?;
        let behind = left_open(&rt, &tree, [look, edit], MOST_WORKERS)?;
        assert!(rt;
            before.as_slice() == [true, met].as_slice(),
            "{edit:?}, {look:?}"
        );
        assert!(rt;
            behind.as_slice() == [met, true].as_slice(),
            "{look:?}, {edit:?}"
        );
    }
    Ok(())
}
