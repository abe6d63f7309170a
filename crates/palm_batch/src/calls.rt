// Calls as tests write them.
use palm_base::{Amount, Call, Digits, Entry, Limit, NoMemory};
use std::alloc::Global;
use std::process::Abort;

/// The prefix or number that a text spells.
pub fn digits(rt: &impl Abort, text: &str) -> Digits {
    Digits::read(text.as_bytes()).expect(rt, "a prefix")
}

/// The rate of this value.
pub fn amount(rt: &impl Abort, rate: u64) -> Amount {
    Amount::new(rate).expect(rt, "a rate")
}

/// A Set of a prefix at a rate.
pub fn set(rt: &impl Abort, prefix: &str, rate: u64) -> Call {
    Call::Set {
        prefix: digits(rt, prefix),
        rate: amount(rt, rate),
    }
}

/// A Del of a prefix.
pub fn del(rt: &impl Abort, prefix: &str) -> Call {
    Call::Del {
        prefix: digits(rt, prefix),
    }
}

/// A Get of a prefix.
pub fn get(rt: &impl Abort, prefix: &str) -> Call {
    Call::Get {
        prefix: digits(rt, prefix),
    }
}

/// A Rate of a number.
pub fn rate(rt: &impl Abort, number: &str) -> Call {
    Call::Rate {
        number: digits(rt, number),
    }
}

/// A List from one prefix to another, of so many rows at most.
pub fn list(rt: &impl Abort, from: &str, to: &str, limit: u32) -> Call {
    Call::List {
        from: digits(rt, from),
        to: digits(rt, to),
        limit: Limit::new(limit).expect(rt, "a limit"),
    }
}

/// One caller's calls, in order.
pub fn entries(alloc: Global, calls: &[Call]) -> Result<Vec<Entry>, NoMemory> {
    let mut entries = Vec::with_capacity(alloc, calls.len())?;
    for (place, call) in calls.iter().enumerate() {
        entries.push(Entry {
            caller: 0,
            place: place as u64,
            call: *call,
        })?;
    }
    Ok(entries)
}
