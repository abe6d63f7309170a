// The three words that a call is sent in. The highest group of the third says which kind of call it is:
//
//     call    word 1           word 2        word 3
//     Set     key of prefix    rate          1 * 2^60
//     Del     key of prefix    0             2 * 2^60
//     Get     key of prefix    0             3 * 2^60
//     Rate    key of number    0             4 * 2^60
//     List    key of from      key of to     5 * 2^60 + limit
//
// So a Set of 44 to 1000 is 0x4400000000000002, 0x00000000000003E8, 0x1000000000000000.
ghost use Rattle.std.specs.Prelude.{◌≡◌, ◌≤◌, ◌<◌, ◌^◌, [], ◌∷◌};
ghost use Rattle.palm_base.specs.Key.{IsKey, digits_of};
ghost use Rattle.palm_base.specs.declared.call.Call.{Call as AnyCall};
ghost use Rattle.palm_base.specs.declared.amount.TheConstants.{MOST_RATE, MOST_LIMIT};
ghost use Rattle.palm_desk.specs.Words.{spell, IsCall, first_word, second_word, third_word};

use palm_base::{Amount, Call, Digits, Limit};

/// A call as it is sent.
#[derive(Clone, Copy)]
pub(crate) struct CallWords {
    pub first: u64,
    pub second: u64,
    pub third: u64,
}

/// The words of a call.
pub(crate) fn words_of(call: &Call) -> CallWords
    ensures first { result.first ≡ first_word call.now }
    ensures second { result.second ≡ second_word call.now }
    ensures third { result.third ≡ third_word call.now }
    ensures call { IsCall call.now }
{
    match call {
        Call::Set { prefix, rate } => CallWords {
            first: prefix.key(),
            second: rate.get(),
            third: 1 << 60,
        },
        Call::Del { prefix } => CallWords {
            first: prefix.key(),
            second: 0,
            third: 2 << 60,
        },
        Call::Get { prefix } => CallWords {
            first: prefix.key(),
            second: 0,
            third: 3 << 60,
        },
        Call::Rate { number } => CallWords {
            first: number.key(),
            second: 0,
            third: 4 << 60,
        },
        Call::List { from, to, limit } => CallWords {
            first: from.key(),
            second: to.key(),
            third: (5 << 60) + u64::from(limit.get()),
        },
    }
}

// A rate that was sent.
fn rate_of(word: u64) -> Amount
    requires { word ≤ MOST_RATE }
    ensures { result ≡ word }
{
    let Some(rate) = Amount::new(word) else {
        unreachable!()
    };
    rate
}

// A limit that was sent.
fn limit_of(word: u64) -> Limit
    requires { (1 ≤ word) × (word ≤ MOST_LIMIT) }
    ensures { result ≡ word }
{
    let Some(limit) = Limit::new(word as u32) else {
        unreachable!()
    };
    limit
}

/// The call that was sent in these words.
pub(crate) fn call_of(words: &CallWords) -> Call
    requires { (call : AnyCall) × IsCall call
        × (spell call ≡ words.now.first ∷ words.now.second ∷ words.now.third ∷ []) }
    ensures { (call : AnyCall) → IsCall call
        → spell call ≡ words.now.first ∷ words.now.second ∷ words.now.third ∷ [] → result ≡ call }
{
    match words.third >> 60 {
        1 => Call::Set {
            prefix: Digits::of_key(words.first),
            rate: rate_of(words.second),
        },
        2 => Call::Del {
            prefix: Digits::of_key(words.first),
        },
        3 => Call::Get {
            prefix: Digits::of_key(words.first),
        },
        4 => Call::Rate {
            number: Digits::of_key(words.first),
        },
        _ => Call::List {
            from: Digits::of_key(words.first),
            to: Digits::of_key(words.second),
            limit: limit_of(words.third % (1 << 60)),
        },
    }
}
