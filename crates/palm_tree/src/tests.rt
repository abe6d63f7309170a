// Trees of one to three levels that are built, and looked up by prefix, by number and by range.
ghost use Rattle.palm_base.specs.Table.{IsTable};

use super::*;
use palm_base::text::{append, append_number};
use palm_base::{Amount, Call, Digits, Entry, Limit, NoMemory, Reply, Row, RowList};
use std::alloc::Global;
use std::process::Abort;
use std::test::Fail;

// The prefix that a text spells.
fn digits(rt: &impl Abort, text: &[u8]) -> Digits {
    match Digits::read(text) {
        Ok(digits) => digits,
        Err(_) => panic!(rt; "no prefix"),
    }
}

// The row of a number's digits, at the number as its rate.
fn row(rt: &impl Abort, alloc: Global, number: u64) -> Result<Row, NoMemory> {
    let mut text = Vec::new(alloc);
    append_number(number, &mut text)?;
    let prefix = digits(rt, &text);
    match Amount::new(number) {
        Some(rate) => Ok(Row { prefix, rate }),
        None => panic!(rt; "no rate"),
    }
}

// The rows of these numbers, from one to another, both included.
fn rows(rt: &impl Abort, alloc: Global, from: u64, to: u64) -> Result<RowList, NoMemory> {
    let mut rows = RowList::new(alloc);
    for number in from..=to {
        rows.push(row(rt, alloc, number)?)?;
    }
    Ok(rows)
}

fn assert_rise(rt: &impl Abort, rows: &[Row])
    ensures { IsTable rows.now }
{
    for i in 1..rows.len() {
        assert!(rt; rows[i - 1].prefix.key() < rows[i].prefix.key());
    }
}

// The tree that is built from the rows of these numbers.
fn built(rt: &impl Abort, alloc: Global, from: u64, to: u64) -> Result<Tree, NoMemory> {
    let rows = rows(rt, alloc, from, to)?;
    assert_rise(rt, rows.as_slice());
    Tree::build(alloc, &rows)
}

// A tree of three levels, with some rows that stand beside each other and begin the same numbers.
fn nested(rt: &impl Abort, alloc: Global) -> Result<Tree, NoMemory> {
    let mut rows = rows(rt, alloc, 100, 499)?;
    for number in [5, 5499, 5549, 55549] {
        rows.push(row(rt, alloc, number)?)?;
    }
    assert_rise(rt, rows.as_slice());
    Tree::build(alloc, &rows)
}

// The rows of these numbers as a leaf's line.
fn append_leaf(from: u64, to: u64, text: &mut Vec<u8>) -> Result<(), NoMemory> {
    append(b"leaf ", text)?;
    append_number(to.wrapping_sub(from).wrapping_add(1), text)?;
    for number in from..=to {
        append(b" ", text)?;
        append_number(number, text)?;
        append(b" ", text)?;
        append_number(number, text)?;
    }
    append(b"\n", text)
}

// The tree of the rows from one number to another has these lines above its leaves, and leaves of these numbers.
fn assert_shape(
    rt: &impl Abort,
    alloc: Global,
    (from, to): (u64, u64),
    upper: &[u8],
    leaves: &[(u64, u64)],
) -> Result<(), NoMemory> {
    let mut text = Vec::new(alloc);
    append(upper, &mut text)?;
    for (first, last) in leaves {
        append_leaf(*first, *last, &mut text)?;
    }
    let tree = built(rt, alloc, from, to)?;
    let mut dumped = Vec::new(alloc);
    tree.dump(&mut dumped)?;
    assert!(rt;
        dumped.as_slice() == text.as_slice(),
        "the shape of {from} to {to}"
    );
    Ok(())
}

// The list of a range is the rows of these numbers.
fn assert_listed(
    rt: &impl Abort,
    alloc: Global,
    listed: &RowList,
    (from, to): (u64, u64),
) -> Result<(), NoMemory> {
    let expected = rows(rt, alloc, from, to)?;
    assert!(rt; listed.as_slice() == expected.as_slice(), "{from} to {to}");
    Ok(())
}

// A Get, a Rate and a List of each prefix, and edits of it between them.
fn calls_of(rt: &impl Abort, alloc: Global, texts: &[&[u8]]) -> Result<Vec<Entry>, NoMemory> {
    let mut entries = Vec::new(alloc);
    let (Some(rate), Some(limit)) = (Amount::new(7), Limit::new(3)) else {
        panic!(rt; "no rate or limit")
    };
    let to = digits(rt, b"999999999999999");
    for text in texts {
        let prefix = digits(rt, text);
        let number = digits(rt, text);
        let from = digits(rt, text);
        for call in [
            Call::Get { prefix },
            Call::Set { prefix, rate },
            Call::Rate { number },
            Call::Del { prefix },
            Call::List { from, to, limit },
        ] {
            entries.push(Entry {
                caller: 0,
                place: 0,
                call,
            })?;
        }
    }
    Ok(entries)
}

// The answer to an entry is the one that the tree gives it alone, and none to an edit.
fn assert_answer(
    rt: &impl Abort,
    tree: &Tree,
    entry: &Entry,
    answer: &Option<Reply>,
) -> Result<(), NoMemory> {
    match (&entry.call, answer) {
        (Call::Get { prefix }, Some(Reply::Value(rate))) => {
            assert!(rt; tree.get(prefix) == Some(*rate), "{prefix:?}");
        }
        (Call::Get { prefix }, Some(Reply::Absent)) => {
            assert!(rt; tree.get(prefix).is_none(), "{prefix:?}");
        }
        (Call::Rate { number }, Some(Reply::Hit(row))) => {
            assert!(rt; tree.longest(number) == Some(*row), "{number:?}");
        }
        (Call::Rate { number }, Some(Reply::Absent)) => {
            assert!(rt; tree.longest(number).is_none(), "{number:?}");
        }
        (Call::List { from, to, limit }, Some(Reply::Rows(rows))) => {
            let listed = tree.list(from, to, *limit)?;
            assert!(rt; listed.as_slice() == rows.as_slice(), "{from:?}");
        }
        (Call::Set { .. } | Call::Del { .. }, None) => {}
        _ => panic!(rt; "no such answer"),
    }
    Ok(())
}

// All answers are those that the tree gives one by one.
fn assert_answers(
    rt: &impl Abort,
    alloc: Global,
    tree: &Tree,
    texts: &[&[u8]],
) -> Result<(), NoMemory> {
    let entries = calls_of(rt, alloc, texts)?;
    let answers = tree.answer_look_ups(&entries)?;
    assert_eq!(rt; answers.len(), entries.len());
    for (entry, answer) in entries.iter().zip(answers.iter()) {
        assert_answer(rt, tree, entry, answer)?;
    }
    Ok(())
}

// So they are for more calls than go down together, for few, and for none.
fn assert_looked_up(rt: &impl Abort, alloc: Global, tree: &Tree) -> Result<(), NoMemory> {
    let texts = [
        b"55555".as_slice(),
        b"5",
        b"0",
        b"21",
        b"100",
        b"2500",
        b"33",
        b"554",
        b"4999",
        b"999999999999999",
    ];
    assert_answers(rt, alloc, tree, &texts)?;
    assert_answers(rt, alloc, tree, &texts[..1])?;
    assert_answers(rt, alloc, tree, &[])
}

#[test]
fn an_empty_tree_has_one_leaf_and_no_rates(rt: HostRuntime) -> Result<(), Fail> {
    let tree = Tree::new(rt.alloc())?;
    assert_eq!(rt; tree.levels(), 1);
    assert_eq!(rt; tree.row_count(), 0);
    assert!(rt; tree.get(&digits(&rt, b"44")).is_none());
    assert!(rt; tree.longest(&digits(&rt, b"4420")).is_none());
    let mut text = Vec::new(rt.alloc());
    tree.dump(&mut text)?;
    assert!(rt; text.as_slice() == b"tree 1 0\nleaf 0\n".as_slice());
    Ok(())
}

#[test]
fn builds_trees_of_one_and_two_levels(rt: HostRuntime) -> Result<(), Fail> {
    let alloc = rt.alloc();
    assert_shape(&rt, alloc, (10, 25), b"tree 1 16\n", &[(10, 25)])?;
    let two = b"tree 2 17\ninner 2 19\n";
    assert_shape(&rt, alloc, (10, 26), two, &[(10, 18), (19, 26)])?;
    let three = b"tree 2 34\ninner 3 22 33\n";
    assert_shape(&rt, alloc, (10, 43), three, &[(10, 21), (22, 32), (33, 43)])?;
    Ok(())
}

#[test]
fn builds_a_tree_of_three_levels(rt: HostRuntime) -> Result<(), Fail> {
    let upper = b"tree 3 400
inner 2 308
inner 13 116 132 148 164 180 196 212 228 244 260 276 292
inner 12 324 340 356 372 388 404 420 436 452 468 484
";
    let leaves = [
        (100, 115),
        (116, 131),
        (132, 147),
        (148, 163),
        (164, 179),
        (180, 195),
        (196, 211),
        (212, 227),
        (228, 243),
        (244, 259),
        (260, 275),
        (276, 291),
        (292, 307),
        (308, 323),
        (324, 339),
        (340, 355),
        (356, 371),
        (372, 387),
        (388, 403),
        (404, 419),
        (420, 435),
        (436, 451),
        (452, 467),
        (468, 483),
        (484, 499),
    ];
    assert_shape(&rt, rt.alloc(), (100, 499), upper, &leaves)?;
    Ok(())
}

#[test]
fn looks_prefixes_and_numbers_up(rt: HostRuntime) -> Result<(), Fail> {
    let tree = built(&rt, rt.alloc(), 10, 43)?;
    assert_eq!(rt; tree.row_count(), 34);
    assert_eq!(rt; tree.levels(), 2);
    for number in [10, 21, 22, 32, 33, 43] {
        let row = row(&rt, rt.alloc(), number)?;
        assert!(rt; tree.get(&row.prefix) == Some(row.rate), "{number}");
    }
    assert!(rt; tree.get(&digits(&rt, b"09")).is_none());
    assert!(rt; tree.get(&digits(&rt, b"44")).is_none());
    let longest = tree.longest(&digits(&rt, b"219999"));
    assert!(rt; longest == Some(row(&rt, rt.alloc(), 21)?));
    assert!(rt; tree.longest(&digits(&rt, b"5")).is_none());
    Ok(())
}

#[test]
fn rates_numbers_by_jumps(rt: HostRuntime) -> Result<(), Fail> {
    let alloc = rt.alloc();
    let tree = nested(&rt, alloc)?;
    let cases: [(&[u8], u64); 7] = [
        (b"55555", 5),
        (b"5555", 5),
        (b"554999", 5549),
        (b"5549", 5549),
        (b"55549999", 55549),
        (b"499999", 499),
        (b"1000", 100),
    ];
    for (text, number) in cases {
        let expected = row(&rt, alloc, number)?;
        let found = tree.longest(&digits(&rt, text));
        assert!(rt; found == Some(expected), "{number}");
    }
    for text in [b"0".as_slice(), b"099", b"10", b"6", b"999999999999999"] {
        assert!(rt; tree.longest(&digits(&rt, text)).is_none());
    }
    Ok(())
}

#[test]
fn answers_look_ups_abreast_as_one_by_one(rt: HostRuntime) -> Result<(), Fail> {
    let alloc = rt.alloc();
    assert_looked_up(&rt, alloc, &Tree::new(alloc)?)?;
    for (from, to) in [(10, 25), (10, 43)] {
        let tree = built(&rt, alloc, from, to)?;
        assert_looked_up(&rt, alloc, &tree)?;
    }
    let tree = nested(&rt, alloc)?;
    assert_looked_up(&rt, alloc, &tree)?;
    Ok(())
}

#[test]
fn lists_ranges(rt: HostRuntime) -> Result<(), Fail> {
    let alloc = rt.alloc();
    let all = (digits(&rt, b"0"), digits(&rt, b"999999999999999"));
    let Some(hundred) = Limit::new(100) else {
        panic!(rt; "no limit")
    };
    let small = built(&rt, alloc, 12, 25)?;
    assert_listed(&rt, alloc, &small.list(&all.0, &all.1, hundred)?, (12, 25))?;
    let tree = built(&rt, alloc, 10, 43)?;
    assert_listed(&rt, alloc, &tree.list(&all.0, &all.1, hundred)?, (10, 43))?;
    let (from, to) = (digits(&rt, b"20"), digits(&rt, b"33"));
    assert_listed(&rt, alloc, &tree.list(&from, &to, hundred)?, (20, 33))?;
    assert!(rt; tree.list(&to, &from, hundred)?.is_empty(), "turned round");
    let Some(four) = Limit::new(4) else {
        panic!(rt; "no limit")
    };
    assert_listed(&rt, alloc, &tree.list(&from, &to, four)?, (20, 23))?;
    Ok(())
}

#[test]
fn gives_all_rows(rt: HostRuntime) -> Result<(), Fail> {
    let alloc = rt.alloc();
    assert!(rt; Tree::new(alloc)?.all_rows()?.is_empty(), "no rows");
    for (from, to, levels) in [(10, 25, 1), (10, 43, 2), (100, 499, 3)] {
        let tree = built(&rt, alloc, from, to)?;
        assert_eq!(rt; tree.levels(), levels);
        assert_listed(&rt, alloc, &tree.all_rows()?, (from, to))?;
    }
    Ok(())
}
