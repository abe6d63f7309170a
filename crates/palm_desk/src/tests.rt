// What callers and a driver meet with at a desk, one after another and beside each other.
ghost use Rattle.std.specs.Thread.{IsSync};
ghost use Rattle.std.specs.Prelude.{◌≡◌, ◌+◌, ◌<◌, ◌≤◌, [], length};
ghost use Rattle.palm_desk.specs.Opened.{AreNewCallers, new_caller};

use super::*;
use palm_base::{Amount, Call, Digits, Entry, NoMemory, Reply};
use std::alloc::Global;
use std::process::Abort;
use std::test::Fail;
use std::thread::{Threads, join};

// How many calls each caller makes beside the others.
const CALLS: u64 = 25_000;

// After so many looks in vain a thread gives up.
const MOST_TURNS: u32 = 4_000_000_000;

fn digits(rt: &impl Abort, text: &str) -> Digits {
    Digits::read(text.as_bytes()).expect(rt, "a prefix")
}

fn get(rt: &impl Abort, text: &str) -> Call {
    let prefix = digits(rt, text);
    Call::Get { prefix }
}

fn rate_of(rt: &impl Abort, value: u64) -> Amount {
    Amount::new(value).expect(rt, "a rate")
}

fn set(rt: &impl Abort, text: &str, rate: u64) -> Call {
    let (prefix, rate) = (digits(rt, text), rate_of(rt, rate));
    Call::Set { prefix, rate }
}

// The call at the place 0 of a caller.
fn first_of(caller: u32, call: Call) -> Entry {
    Entry {
        caller,
        place: 0,
        call,
    }
}

fn is_number(reply: &Reply, number: u64) -> bool {
    match reply {
        Reply::Value(rate) => rate.get() == number,
        _ => false,
    }
}

// The last of the seats.
fn last_seat(rt: &impl Abort, desk: &Desk, seats: &mut Vec<CallerSeat>) -> CallerSeat
    requires { AreNewCallers desk.now (length seats.old.items) seats.old.items }
    ensures seat { result ≡ new_caller desk.now (length seats.new.items) }
    ensures len { length seats.new.items + 1 ≡ length seats.old.items }
    ensures rest { AreNewCallers desk.now (length seats.new.items) seats.new.items }
{
    seats.pop().expect(rt, "a seat")
}

fn assert_submits(
    rt: &impl Abort,
    desk: &Desk,
    seat: &mut CallerSeat,
    call: Call,
    said: Result<u64, SubmitFault>,
)
    requires { seat.old.desk ≡ desk.now }
    ensures desk { seat.new.desk ≡ desk.now }
    ensures caller { seat.new.caller ≡ seat.old.caller }
{
    assert!(rt; seat.submit(desk, call) == said);
}

fn assert_pends(rt: &impl Abort, desk: &Desk, seat: &mut CallerSeat)
    requires { seat.old.desk ≡ desk.now }
    ensures desk { seat.new.desk ≡ desk.now }
    ensures caller { seat.new.caller ≡ seat.old.caller }
{
    assert!(rt; matches!(seat.poll(desk), Poll::Pending));
}

fn assert_has_nothing(rt: &impl Abort, desk: &Desk, seat: &mut CallerSeat)
    requires { seat.old.desk ≡ desk.now }
    ensures desk { seat.new.desk ≡ desk.now }
    ensures caller { seat.new.caller ≡ seat.old.caller }
{
    assert!(rt; matches!(seat.poll(desk), Poll::Nothing));
}

fn assert_is_told_new(rt: &impl Abort, desk: &Desk, seat: &mut CallerSeat, number: u64)
    requires { seat.old.desk ≡ desk.now }
    ensures desk { seat.new.desk ≡ desk.now }
    ensures caller { seat.new.caller ≡ seat.old.caller }
{
    let Poll::Ready(told, Reply::New) = seat.poll(desk) else {
        panic!(rt; "a reply");
    };
    assert_eq!(rt; told, number);
}

fn assert_takes(rt: &impl Abort, desk: &Desk, driver: &mut DriverSeat, entry: Entry)
    requires { driver.old.desk ≡ desk.now }
    ensures desk { driver.new.desk ≡ desk.now }
    ensures taken { length driver.new.taken ≡ length driver.old.taken + 1 }
    ensures replies { length driver.new.replies ≡ length driver.old.replies }
{
    let Some(taken) = driver.next(desk) else {
        panic!(rt; "a call");
    };
    assert!(rt; taken == entry);
}

fn assert_takes_none(rt: &impl Abort, desk: &Desk, driver: &mut DriverSeat)
    requires { driver.old.desk ≡ desk.now }
    ensures desk { driver.new.desk ≡ desk.now }
    ensures taken { length driver.new.taken ≡ length driver.old.taken }
    ensures replies { length driver.new.replies ≡ length driver.old.replies }
{
    let None = driver.next(desk) else {
        panic!(rt; "no call");
    };
}

fn answer(desk: &Desk, driver: &mut DriverSeat, reply: Reply)
    requires desk { driver.old.desk ≡ desk.now }
    requires some { length driver.old.replies < length driver.old.taken }
    ensures desk { driver.new.desk ≡ desk.now }
    ensures taken { length driver.new.taken ≡ length driver.old.taken }
    ensures replies { length driver.new.replies ≡ length driver.old.replies + 1 }
{
    driver.answer(desk, reply);
}

// What is left of a desk of two callers.
fn close_two(
    desk: Desk,
    driver: DriverSeat,
    first: CallerSeat,
    second: CallerSeat,
    mut seats: Vec<CallerSeat>,
) -> Result<Rest, Fail>
    requires driver { (driver.desk ≡ desk) × (length desk.terms.firsts ≡ 2) }
    requires first { (first.desk ≡ desk) × (first.caller ≡ 0) }
    requires second { (second.desk ≡ desk) × (second.caller ≡ 1) }
    requires none { seats.items ≡ [] }
{
    seats.push(first)?;
    seats.push(second)?;
    Ok(close(desk, driver, seats))
}

#[test]
fn calls_are_taken_in_one_order_and_told_once_they_are_finished(
    rt: HostRuntime,
) -> Result<(), Fail> {
    let (desk, mut driver, mut seats) = open_desk(rt.alloc(), 0, &[0, 0], 1, 9)?;
    let mut second = last_seat(&rt, &desk, &mut seats);
    let mut first = last_seat(&rt, &desk, &mut seats);
    assert_submits(&rt, &desk, &mut first, set(&rt, "44", 1), Ok(0));
    assert_submits(
        &rt,
        &desk,
        &mut first,
        get(&rt, "44"),
        Err(SubmitFault::Full),
    );
    assert_submits(&rt, &desk, &mut second, get(&rt, "44"), Ok(1));
    assert_pends(&rt, &desk, &mut first);
    assert_takes(&rt, &desk, &mut driver, first_of(0, set(&rt, "44", 1)));
    assert_takes(&rt, &desk, &mut driver, first_of(1, get(&rt, "44")));
    assert_takes_none(&rt, &desk, &mut driver);
    answer(&desk, &mut driver, Reply::New);
    assert_pends(&rt, &desk, &mut first);
    answer(&desk, &mut driver, Reply::Value(rate_of(&rt, 1)));
    driver.finish(&desk);
    assert_is_told_new(&rt, &desk, &mut first, 0);
    assert_has_nothing(&rt, &desk, &mut first);
    let rest = close_two(desk, driver, first, second, seats)?;
    assert!(rt; rest.waiting.is_empty());
    assert_eq!(rt; rest.unread.len(), 1);
    for (number, reply) in rest.unread.as_slice() {
        assert!(rt; *number == 1 && is_number(reply, 1));
    }
    Ok(())
}

// What is left of a desk of one caller.
fn close_one(
    desk: Desk,
    driver: DriverSeat,
    seat: CallerSeat,
    mut seats: Vec<CallerSeat>,
) -> Result<Rest, Fail>
    requires driver { (driver.desk ≡ desk) × (length desk.terms.firsts ≡ 1) }
    requires seat { (seat.desk ≡ desk) × (seat.caller ≡ 0) }
    requires none { seats.items ≡ [] }
{
    seats.push(seat)?;
    Ok(close(desk, driver, seats))
}

#[test]
fn a_full_window_is_told_before_a_spent_quota(rt: HostRuntime) -> Result<(), Fail> {
    for (window, fault) in [(2, SubmitFault::Spent), (1, SubmitFault::Full)] {
        let (desk, driver, mut seats) = open_desk(rt.alloc(), 10, &[3], window, 1)?;
        let mut seat = last_seat(&rt, &desk, &mut seats);
        assert_submits(&rt, &desk, &mut seat, get(&rt, "4"), Ok(10));
        assert_submits(&rt, &desk, &mut seat, get(&rt, "4"), Err(fault));
        let rest = close_one(desk, driver, seat, seats)?;
        assert!(rt; rest.unread.is_empty());
        let waiting = [Entry {
            caller: 0,
            place: 3,
            call: get(&rt, "4"),
        }];
        assert!(rt; rest.waiting.as_slice() == waiting.as_slice());
    }
    Ok(())
}

// What a thread has met with: how many calls, and whether all were right.
#[derive(Drop)]
struct Tally {
    calls: u64,
    right: bool,
}

// Makes calls as they find room, and collects the replies, each of which is to be its call's number. The numbers rise.
fn call_all(desk: &Desk, mut seat: CallerSeat, call: Call) -> Tally
    requires { seat.desk ≡ desk.now }
{
    let (mut made, mut calls, mut last, mut right) = (0, 0, 0, true);
    for _ in 0..MOST_TURNS {
        if calls == CALLS {
            break;
        }
        if made < CALLS && seat.submit(desk, call).is_ok() {
            made += 1;
        }
        if let Poll::Ready(number, reply) = seat.poll(desk) {
            right &= last < number && is_number(&reply, number);
            last = number;
            calls += 1;
        }
    }
    Tally { calls, right }
}

// Takes the calls of four callers, of which each is to make its own in order, and answers each its number.
fn answer_all(desk: &Desk, mut driver: DriverSeat) -> Tally
    requires desk { driver.desk ≡ desk.now }
    requires none_waits { length driver.replies ≡ length driver.taken }
{
    let mut places: [u64; 4] = [0; 4];
    let (mut calls, mut right) = (0, true);
    for _ in 0..MOST_TURNS {
        if calls == 4 * CALLS {
            break;
        }
        let Some(entry) = driver.next(desk) else {
            continue;
        };
        calls += 1;
        let reply = match Amount::new(calls) {
            Some(rate) => Reply::Value(rate),
            None => Reply::Absent,
        };
        driver.answer(desk, reply);
        driver.finish(desk);
        if let Some(place) = places.get_mut(entry.caller as usize) {
            right &= *place == entry.place;
            *place = place.wrapping_add(1);
        }
    }
    Tally { calls, right }
}

// Two callers beside each other.
fn call_in_pairs<R: Threads + Sync>(
    rt: &R,
    desk: &Desk,
    first: CallerSeat,
    second: CallerSeat,
    call: Call,
) -> (Tally, Tally)
    requires first { first.desk ≡ desk.now }
    requires second { second.desk ≡ desk.now }
{
    join(
        rt,
        || -> Tally
            requires { first.desk ≡ desk.now }
        { call_all(desk, first, call) },
        || -> Tally
            requires { second.desk ≡ desk.now }
        { call_all(desk, second, call) },
    )
}

// Four callers and a driver beside each other: what the driver has met with, and what each caller has.
fn run_beside<R: Threads + Sync + Abort>(
    rt: &R,
    alloc: Global,
    window: u32,
) -> Result<(Tally, ((Tally, Tally), (Tally, Tally))), NoMemory>
    requires { (1 ≤ window) × (window ≤ 64) }
{
    let call = get(rt, "44");
    let (desk, driver, mut seats) = open_desk(alloc, 1, &[0, 0, 0, 0], window, CALLS)?;
    let fourth = last_seat(rt, &desk, &mut seats);
    let third = last_seat(rt, &desk, &mut seats);
    let second = last_seat(rt, &desk, &mut seats);
    let first = last_seat(rt, &desk, &mut seats);
    let desk = &desk;
    Ok(join(
        rt,
        || -> Tally
            requires { (driver.desk ≡ desk.now) × (length driver.replies ≡ length driver.taken) }
        { answer_all(desk, driver) },
        || -> ((Tally, Tally), (Tally, Tally))
            requires { IsSync R.row × (first.desk ≡ desk.now) × (second.desk ≡ desk.now)
                × (third.desk ≡ desk.now) × (fourth.desk ≡ desk.now) }
        {
            join(
                rt,
                || -> (Tally, Tally)
                    requires { IsSync R.row × (first.desk ≡ desk.now) × (second.desk ≡ desk.now) }
                { call_in_pairs(rt, desk, first, second, call) },
                || -> (Tally, Tally)
                    requires { IsSync R.row × (third.desk ≡ desk.now) × (fourth.desk ≡ desk.now) }
                { call_in_pairs(rt, desk, third, fourth, call) },
            )
        },
    ))
}

fn assert_all(rt: &impl Abort, tally: &Tally, calls: u64) {
    assert_eq!(rt; tally.calls, calls);
    assert!(rt; tally.right);
}

#[test]
fn callers_and_a_driver_go_on_beside_each_other(rt: HostRuntime) -> Result<(), Fail> {
    for window in [1, 16, 64] {
        let (taken, (low, high)) = run_beside(&rt, rt.alloc(), window)?;
        assert_all(&rt, &taken, 4 * CALLS);
        assert_all(&rt, &low.0, CALLS);
        assert_all(&rt, &low.1, CALLS);
        assert_all(&rt, &high.0, CALLS);
        assert_all(&rt, &high.1, CALLS);
    }
    Ok(())
}
