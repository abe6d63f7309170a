// Calls drawn from a state: a linear congruential generator of 64 bits, of whose states the upper halves are used.
ghost use Rattle.std.specs.Prelude.{◌≡◌, ◌≤◌, ◌<◌, ◌+◌, ◌^◌, ◌++◌, length, take, drop};
ghost use Rattle.std.specs.Prelude.{replicate, OnOk, OnErr, IfOk};
ghost use Rattle.palm_base.specs.Text.{digits_text};
ghost use Rattle.palm_base.specs.declared.digits.TheConstants.{MOST_DIGITS};
ghost use Rattle.palm_gen.specs.Generator.{next_state, drawn, last_digits, call_by, generated, history_from};
ghost use Rattle.palm_gen.specs.Generator.{state_after};
ghost use Rattle.palm_gen.specs.declared.summary.TheConstants.{MOST_GENERATED_CALLS};

use palm_base::{Amount, Call, Digits, Entry, Limit, MOST_DIGITS, NoMemory};

/// How many callers call by turns.
const CALLERS: u64 = 4;

fn next_state(state: u64) -> u64
    ensures { result ≡ next_state state }
{
    state
        .wrapping_mul(6_364_136_223_846_793_005)
        .wrapping_add(1_442_695_040_888_963_407)
}

fn drawn(state: u64) -> u64
    ensures value { result ≡ drawn state }
    ensures small { result < 2 ^ 32 }
{
    state >> 32
}

// Writes the last `n` decimal digits of a number to the front of a text.
fn write_digits(text: &mut [u8], n: usize, value: u64)
    requires { n ≤ length text.old }
    ensures written { take n text.new ≡ digits_text (last_digits n value) }
    ensures rest { drop n text.new ≡ drop n text.old }
{
    if n > 0 {
        write_digits(text, n - 1, value / 10);
        text[n - 1] = b'0' + (value % 10) as u8;
    }
}

// The last `n` decimal digits of a number, and after them one digit so many times.
fn digits_of(n: usize, value: u64, digit: u8, times: usize) -> Digits
    requires some { 1 ≤ n }
    requires few { n + times ≤ MOST_DIGITS }
    requires small { digit < 10 }
    ensures { result ≡ last_digits n value ++ replicate times digit }
{
    let mut text = [b'0' + digit; MOST_DIGITS as usize];
    write_digits(&mut text, n, value);
    let Ok(digits) = Digits::read(&text[..n + times]) else {
        unreachable!()
    };
    digits
}

// The call of a kind from 0 to 7, with a prefix of the last `n` decimal digits of a number.
fn call_by(kind: u64, n: usize, value: u64, rate: u64) -> Call
    requires least { 2 ≤ n }
    requires most { n ≤ 7 }
    requires rate { rate < 2 ^ 32 }
    ensures { result ≡ call_by kind (last_digits n value) rate }
{
    let prefix = digits_of(n, value, 0, 0);
    match kind {
        0..=3 => match Amount::new(rate) {
            Some(rate) => Call::Set { prefix, rate },
            None => unreachable!(),
        },
        4 => Call::Del { prefix },
        5 => Call::Get { prefix },
        6 => Call::Rate {
            number: digits_of(n, value, 5, 4),
        },
        _ => match Limit::new(8) {
            Some(limit) => Call::List {
                from: prefix,
                to: digits_of(n, value, 9, 4),
                limit,
            },
            None => unreachable!(),
        },
    }
}

/// Call `i`, counted from 0, drawn from this state: the call, its caller, and the state after it, from which call
/// `i + 1` is drawn. It takes three draws, for the call's kind, for its rate and the length of its prefix, and for
/// the prefix.
pub fn gen_call(state: u64, i: u64) -> (Call, u32, u64)
    ensures call { result.0 ≡ (generated state i).call }
    ensures caller { result.1 ≡ (generated state i).caller }
    ensures state { result.2 ≡ (generated state i).state }
{
    let first = next_state(state);
    let second = next_state(first);
    let third = next_state(second);
    let rate = drawn(second);
    let n = 2 + (rate % 6) as usize;
    let value = drawn(third) % 10u64.pow(n as u32);
    let call = call_by(drawn(first) % 8, n, value, rate);
    (call, (i % CALLERS) as u32, third)
}

/// Appends the next `count` calls as entries of their callers, and gives the state after them. The first is call
/// `i`, counted from 0, drawn from this state. `entries` are unchanged where memory is refused.
pub fn append_calls(
    state: u64,
    i: u64,
    count: usize,
    entries: &mut Vec<Entry>,
) -> Result<u64, NoMemory>
    requires fits { i + count ≤ MOST_GENERATED_CALLS }
    ensures ok { OnOk result (entries.new.items ≡ entries.old.items ++ history_from count state i) }
    ensures state { IfOk result (λ next. next ≡ state_after count state) }
    ensures err { OnErr result (entries.new.items ≡ entries.old.items) }
{
    entries.reserve(count)?;
    let mut latest = state;
    for made in 0..count {
        let n = i + made as u64;
        let (call, caller, next) = gen_call(latest, n);
        entries.push_reserved(Entry {
            caller,
            place: n / CALLERS,
            call,
        });
        latest = next;
    }
    Ok(latest)
}
