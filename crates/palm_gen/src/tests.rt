// The first calls of a seed, calls made piece by piece, and what replies are summed up to.
ghost use Rattle.std.specs.Prelude.{◌≡◌, length, IfOk};

use crate::{MOST_GENERATED_CALLS, Tally, append_calls, gen_call, print_summary};
use palm_base::{Amount, Call, Digits, Entry, Limit, Reply, Row, RowList};
use std::alloc::{AllocError, Global};
use std::process::Abort;
use std::test::Fail;

fn dialled(rt: &impl Abort, text: &str) -> Digits {
    Digits::read(text.as_bytes()).expect(rt, "a prefix")
}

fn amount(rt: &impl Abort, value: u64) -> Amount {
    Amount::new(value).expect(rt, "a rate")
}

fn set(rt: &impl Abort, prefix: &str, rate: u64) -> Call {
    let prefix = dialled(rt, prefix);
    let rate = amount(rt, rate);
    Call::Set { prefix, rate }
}

fn del(rt: &impl Abort, prefix: &str) -> Call {
    let prefix = dialled(rt, prefix);
    Call::Del { prefix }
}

fn get(rt: &impl Abort, prefix: &str) -> Call {
    let prefix = dialled(rt, prefix);
    Call::Get { prefix }
}

fn rate(rt: &impl Abort, number: &str) -> Call {
    let number = dialled(rt, number);
    Call::Rate { number }
}

fn list(rt: &impl Abort, from: &str, to: &str) -> Call {
    let from = dialled(rt, from);
    let to = dialled(rt, to);
    let limit = Limit::new(8).expect(rt, "a limit");
    Call::List { from, to, limit }
}

fn hit(rt: &impl Abort, prefix: &str, rate: u64) -> Reply {
    let prefix = dialled(rt, prefix);
    let rate = amount(rt, rate);
    Reply::Hit(Row { prefix, rate })
}

// A reply of each form.
fn replies(rt: &impl Abort, alloc: Global) -> Result<Vec<Reply>, AllocError>
    ensures { IfOk result (λ replies. length replies.items ≡ 8) }
{
    let mut replies = Vec::new(alloc);
    replies.push(Reply::New)?;
    replies.push(Reply::Was(amount(rt, 100)))?;
    replies.push(Reply::Gone(amount(rt, 200)))?;
    replies.push(Reply::Absent)?;
    replies.push(Reply::Value(amount(rt, 5)))?;
    replies.push(hit(rt, "44", 7))?;
    replies.push(hit(rt, "044", 999_999_999_999))?;
    replies.push(Reply::Rows(RowList::new(alloc)))?;
    Ok(replies)
}

// The calls were computed from the rule by another program.
#[test]
fn the_seed_0_makes_these_calls(rt: HostRuntime) -> Result<(), Fail> {
    let mut state = 0;
    for (i, call) in [
        rate(&rt, "8745555"),
        set(&rt, "873782", 1_647_660_250),
        set(&rt, "582529", 1_528_919_950),
        list(&rt, "2964", "29649999"),
        get(&rt, "5960"),
        del(&rt, "21956"),
        list(&rt, "66269", "662699999"),
        set(&rt, "08277", 3_737_385_375),
        set(&rt, "82", 1_946_651_766),
        rate(&rt, "47802845555"),
    ]
    .iter()
    .enumerate()
    {
        let (found, caller, next) = gen_call(state, i as u64);
        assert_eq!(rt; found, *call);
        assert_eq!(rt; caller, (i % 4) as u32);
        state = next;
    }
    assert_eq!(rt; state, 11_101_546_788_561_990_974);
    Ok(())
}

#[test]
fn another_seed_makes_others(rt: HostRuntime) {
    let (call, caller, state) = gen_call(7, 0);
    assert_eq!(rt; call, del(&rt, "3713506"));
    assert_eq!(rt; caller, 0);
    assert_eq!(rt; state, 16_723_372_171_710_603_212);
    let (call, caller, state) = gen_call(u64::MAX, u64::MAX);
    assert_eq!(rt; call, set(&rt, "5005355", 2_980_664_687));
    assert_eq!(rt; caller, 3);
    assert_eq!(rt; state, 10_372_369_020_401_571_876);
}

#[test]
fn calls_go_on_where_they_were_left(rt: HostRuntime) -> Result<(), Fail> {
    let alloc = rt.alloc();
    let mut whole = Vec::new(alloc);
    let end = append_calls(7, 0, 10, &mut whole)?;
    let mut parts = Vec::new(alloc);
    let middle = append_calls(7, 0, 4, &mut parts)?;
    assert_eq!(rt; parts.len(), 4);
    assert_eq!(rt; append_calls(middle, 4, 6, &mut parts)?, end);
    assert_eq!(rt; whole.len(), 10);
    assert_eq!(rt; parts.as_slice(), whole.as_slice());
    let last = Entry {
        caller: 1,
        place: 2,
        call: set(&rt, "65", 1_284_219_786),
    };
    assert_eq!(rt; whole.as_slice().get(9).copied(), Some(last));
    assert_eq!(rt; append_calls(end, 10, 0, &mut whole)?, end);
    assert_eq!(rt; whole.len(), 10);
    Ok(())
}

#[test]
fn the_last_call_may_be_made(rt: HostRuntime) -> Result<(), Fail> {
    let mut entries = Vec::new(rt.alloc());
    let _state = append_calls(0, MOST_GENERATED_CALLS - 1, 1, &mut entries)?;
    let entry = entries.as_slice().first().copied().expect(&rt, "an entry");
    assert_eq!(rt; (entry.caller, entry.place), (3, 2_499_999));
    Ok(())
}

#[test]
fn replies_are_summed_up(rt: HostRuntime) -> Result<(), Fail> {
    let alloc = rt.alloc();
    let mut tally = Tally::new();
    let mut text = Vec::new(alloc);
    print_summary(&tally, 0, 1, &mut text)?;
    tally.add(&replies(&rt, alloc)?);
    tally.add(&[]);
    tally.add(&replies(&rt, alloc)?);
    print_summary(&tally, 20, 2, &mut text)?;
    let lines =
        "calls 0\nrows 0\nlevels 1\nhits 0\nsum 0\ncalls 16\nrows 20\nlevels 2\nhits 4\nsum 2000000000022\n";
    assert_eq!(rt; text.as_slice(), lines.as_bytes());
    Ok(())
}
