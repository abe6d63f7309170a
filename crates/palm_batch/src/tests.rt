// Replies to batches: each call is answered on the table that the calls before it leave.
ghost use Rattle.std.specs.Prelude.{◌≡◌, ◌<◌, ◌≤◌, length};
ghost use Rattle.palm_base.specs.Key.{key};
ghost use Rattle.palm_share.specs.declared.share.TheConstants.{MOST_WORKERS};
ghost use Rattle.palm_leaf.specs.declared.answer.LeafAnswer.TheVariants.{Old};

use super::*;
use crate::calls::{amount, del, digits, entries, get, list, rate, set};
use crate::replies::join_answers;
use crate::stage_tests::built;
use palm_base::text::{append, append_rate, append_row, append_rows};
use palm_base::{Amount, Call, Digits, Entry, Limit, NoMemory, Reply, Steps};
use palm_leaf::{AnswerList, LeafAnswer, PartAnswer};
use palm_route::{Ask, Part};
use palm_share::{MOST_WORKERS, OpenGate};
use palm_tree::Tree;
use std::alloc::Global;
use std::marker::Brand;
use std::process::Abort;
use std::sync::ledger::{Blank, Ledger};
use std::test::Fail;
use std::thread::Threads;

// Runs a batch with a counter of its own.
fn run<R: Threads + Sync, L: Ledger>(
    rt: &R,
    tree: &mut Tree,
    batch: &[Entry],
    workers: u32,
    blank: Blank,
) -> Result<Vec<Reply>, NoMemory>
    requires blank_name { blank.name ≡ L.name }
    requires blank_parts { blank.parts ≡ L.parts }
    requires blank { 0 < blank.parts }
    requires few_calls { length batch.now ≤ MOST_CALLS }
    requires some { 1 ≤ workers }
    requires few { workers ≤ MOST_WORKERS }
{
    let mut steps = Steps::<L>::new(blank);
    run_batch(rt, tree, batch, workers, &OpenGate, &mut steps)
}

fn replied<R: Threads + Sync + Abort>(
    rt: &R,
    alloc: Global,
    tree: &mut Tree,
    calls: &[Call],
    workers: u32,
) -> Result<Vec<Reply>, Fail>
    requires some { 1 ≤ workers }
    requires few { workers ≤ MOST_WORKERS }
{
    let batch = entries(alloc, calls)?;
    assert!(rt; batch.len() <= MOST_CALLS);
    let replies = run::<R, Brand>(rt, tree, &batch, workers, Blank::new(1))?;
    Ok(replies)
}

// The replies to the calls, as text.
fn asked<R: Threads + Sync + Abort>(
    rt: &R,
    alloc: Global,
    tree: &mut Tree,
    calls: &[Call],
    workers: u32,
) -> Result<String, Fail>
    requires some { 1 ≤ workers }
    requires few { workers ≤ MOST_WORKERS }
{
    let replies = replied(rt, alloc, tree, calls, workers)?;
    Ok(format!(in alloc; "{replies:?}")?)
}

// The rows land alone, in front, at the end, and in the middle.
fn puts(rt: &impl Abort) -> [Call; 7] {
    [
        set(rt, "44", 5),
        set(rt, "2", 1),
        set(rt, "9", 3),
        set(rt, "441", 8),
        set(rt, "44", 7),
        get(rt, "44"),
        get(rt, "4"),
    ]
}

fn takes(rt: &impl Abort) -> [Call; 5] {
    [
        del(rt, "2"),
        del(rt, "2"),
        get(rt, "2"),
        get(rt, "441"),
        get(rt, "9"),
    ]
}

#[test]
fn each_call_is_answered_on_the_table_that_the_calls_before_it_leave(
    rt: HostRuntime,
) -> Result<(), Fail> {
    let alloc = rt.alloc();
    for workers in [1, 3, MOST_WORKERS] {
        let mut tree = Tree::new(alloc)?;
        let empty = asked(&rt, alloc, &mut tree, &[], workers)?;
        assert_eq!(rt; empty.as_str(), "[]", "{workers} workers");
        assert_eq!(rt; tree.row_count(), 0, "{workers} workers");
        let filled = asked(&rt, alloc, &mut tree, &puts(&rt), workers)?;
        assert_eq!(rt;
            filled.as_str(),
            "[New, New, New, New, Was(Amount { value: 5 }), Value(Amount { value: 7 }), Absent]",
            "{workers} workers"
        );
        assert_eq!(rt; tree.row_count(), 4, "{workers} workers");
        let emptied = asked(&rt, alloc, &mut tree, &takes(&rt), workers)?;
        assert_eq!(rt;
            emptied.as_str(),
            "[Gone(Amount { value: 1 }), Absent, Absent, Value(Amount { value: 8 }), Value(Amount { value: 3 })]",
            "{workers} workers"
        );
        assert_eq!(rt; tree.row_count(), 3, "{workers} workers");
    }
    Ok(())
}

fn append_reply(reply: &Reply, out: &mut Vec<u8>) -> Result<(), NoMemory> {
    match reply {
        Reply::New => append(b"new", out),
        Reply::Was(rate) => append_rate(b"was ", rate, out),
        Reply::Gone(rate) => append_rate(b"gone ", rate, out),
        Reply::Absent => append(b"absent", out),
        Reply::Value(rate) => append_rate(b"value ", rate, out),
        Reply::Hit(row) => {
            append(b"hit ", out)?;
            append_row(row, out)
        }
        Reply::Rows(rows) => {
            append(b"rows ", out)?;
            append_rows(rows, out)
        }
    }
}

// The replies in a row, each with a mark behind it.
fn shown(alloc: Global, replies: &[Reply]) -> Result<Vec<u8>, NoMemory> {
    let mut out = Vec::new(alloc);
    for reply in replies {
        append_reply(reply, &mut out)?;
        append(b";", &mut out)?;
    }
    Ok(out)
}

// The tree of 10 to 26 has the leaves of 10 to 18 and of 19 to 26. The fronts 1 and 19 of a number go to both.
fn rates_and_lists(rt: &impl Abort) -> [Call; 14] {
    [
        list(rt, "17", "20", 100),
        rate(rt, "199"),
        set(rt, "1", 1),
        rate(rt, "199"),
        del(rt, "19"),
        rate(rt, "199"),
        list(rt, "17", "20", 100),
        set(rt, "175", 5),
        rate(rt, "1755"),
        list(rt, "17", "20", 1),
        list(rt, "15", "26", 9),
        list(rt, "26", "10", 100),
        rate(rt, "9"),
        list(rt, "0", "99", 100),
    ]
}

const RATED_AND_LISTED: &[u8] =
    b"rows 4 17 17 18 18 19 19 20 20;hit 19 19;new;hit 19 19;gone 19;hit 1 1;rows 3 17 17 18 18 20 20;new;hit 175 5;rows 1 17 17;\
rows 9 15 15 16 16 17 17 175 5 18 18 20 20 21 21 22 22 23 23;rows 0;absent;\
rows 18 1 1 10 10 11 11 12 12 13 13 14 14 15 15 16 16 17 17 175 5 18 18 20 20 21 21 22 22 23 23 24 24 25 25 26 26;";

#[test]
fn rates_and_lists_are_answered_on_the_table_that_the_calls_before_them_leave(
    rt: HostRuntime,
) -> Result<(), Fail> {
    let alloc = rt.alloc();
    for workers in [1, 3, MOST_WORKERS] {
        let mut tree = built(&rt, alloc, 10, 26)?;
        let replies = replied(&rt, alloc, &mut tree, &rates_and_lists(&rt), workers)?;
        let told = shown(alloc, &replies)?;
        assert!(rt; told.as_slice() == RATED_AND_LISTED, "{workers} workers");
        assert_eq!(rt; tree.row_count(), 18, "{workers} workers");
    }
    Ok(())
}

// A prefix of one to three of the digits 1 to 3.
fn drawn_prefix(rt: &impl Abort, state: &mut u64) -> Digits {
    let drawn = draw(state);
    let text = [
        b'1' + (drawn % 3) as u8,
        b'1' + (drawn / 3 % 3) as u8,
        b'1' + (drawn / 9 % 3) as u8,
    ];
    Digits::read(&text[..1 + (drawn / 27 % 3) as usize]).expect(rt, "a prefix")
}

fn draw(state: &mut u64) -> u64 {
    *state = state
        .wrapping_mul(6_364_136_223_846_793_005)
        .wrapping_add(1_442_695_040_888_963_407);
    *state >> 33
}

// As many look-ups as edits, of prefixes so short that many meet.
fn drawn_call(rt: &impl Abort, state: &mut u64) -> Call {
    let prefix = drawn_prefix(rt, state);
    match draw(state) % 6 {
        0 | 1 => Call::Set {
            prefix,
            rate: amount(rt, *state >> 44),
        },
        2 => Call::Del { prefix },
        3 => Call::Get { prefix },
        4 => Call::Rate { number: prefix },
        _ => Call::List {
            from: prefix,
            to: drawn_prefix(rt, state),
            limit: Limit::new(1 + (*state >> 60) as u32).expect(rt, "a limit"),
        },
    }
}

fn drawn_calls(rt: &impl Abort, alloc: Global, seed: u64) -> Result<Vec<Call>, Fail> {
    let mut state = seed;
    let mut calls = Vec::new(alloc);
    for _ in 0..24 {
        calls.push(drawn_call(rt, &mut state))?;
    }
    Ok(calls)
}

// The replies to calls on a tree of 10 to 26, one batch after another of so many calls at most.
fn told<R: Threads + Sync + Abort>(
    rt: &R,
    alloc: Global,
    calls: &[Call],
    most: usize,
    workers: u32,
) -> Result<Vec<u8>, Fail>
    requires most { 1 ≤ most }
    requires some { 1 ≤ workers }
    requires few { workers ≤ MOST_WORKERS }
{
    let mut tree = built(rt, alloc, 10, 26)?;
    let mut told = Vec::new(alloc);
    for batch in calls.chunks(most) {
        let replies = replied(rt, alloc, &mut tree, batch, workers)?;
        append(&shown(alloc, &replies)?, &mut told)?;
    }
    Ok(told)
}

#[test]
fn calls_are_answered_alike_in_one_batch_and_one_by_one(rt: HostRuntime) -> Result<(), Fail> {
    let alloc = rt.alloc();
    for seed in 0..2_000 {
        let workers = [1, 3, MOST_WORKERS][seed as usize % 3];
        let calls = drawn_calls(&rt, alloc, seed)?;
        let apart = told(&rt, alloc, &calls, 1, 1)?;
        let together = told(&rt, alloc, &calls, calls.len().max(1), workers)?;
        assert!(rt; together == apart, "seed {seed}, {workers} workers");
    }
    Ok(())
}

fn entry(call: Call) -> Entry
    ensures { result ≡ record { caller = 0; place = 0; call = call } }
{
    Entry {
        caller: 0,
        place: 0,
        call,
    }
}

fn part_answer(entry: u64, key: u64, ask: Ask, rate: Option<Amount>) -> PartAnswer
    ensures { result ≡ record {
      part = record { entry = entry; number = 0; key = key; ask = ask };
      answer = Old rate;
    } }
{
    PartAnswer {
        part: Part {
            entry,
            number: 0,
            key,
            ask,
        },
        answer: LeafAnswer::Old(rate),
    }
}

fn assert_before(rt: &impl Abort, low: &Digits, high: &Digits)
    ensures { key low.now < key high.now }
{
    assert!(rt; low.key() < high.key());
}

// The leaf from 44 on answers the first entry and the last, after the leaf before it has answered the one between.
#[test]
fn replies_stand_at_their_entries_whatever_leaf_answers(rt: HostRuntime) -> Result<(), Fail> {
    let alloc = rt.alloc();
    let low = digits(&rt, "2");
    let high = digits(&rt, "44");
    assert_before(&rt, &low, &high);
    let rate = amount(&rt, 5);
    let batch = [
        entry(Call::Set { prefix: high, rate }),
        entry(Call::Get { prefix: low }),
        entry(Call::Get { prefix: high }),
    ];
    let mut answers = AnswerList::new(alloc);
    answers.push(part_answer(1, low.key(), Ask::Look, None))?;
    answers.push(part_answer(0, high.key(), Ask::Set(rate), None))?;
    answers.push(part_answer(2, high.key(), Ask::Look, Some(rate)))?;
    let replies = join_answers(alloc, &batch, answers)?;
    let told = format!(in alloc; "{replies:?}")?;
    assert_eq!(rt; told.as_str(), "[New, Absent, Value(Amount { value: 5 })]");
    Ok(())
}
