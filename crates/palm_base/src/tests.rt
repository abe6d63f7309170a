// Keys, texts, rates, limits and rows at chosen values.
ghost use Rattle.std.specs.Prelude.{◌≡◌, ◌<◌};

use super::*;
use std::marker::Brand;
use std::mem::size_of;
use std::process::Abort;
use std::sync::ledger::{Blank, Ledger};
use std::test::Fail;

// The prefix that a text spells.
fn digits(rt: &impl Abort, text: &[u8]) -> Digits {
    match Digits::read(text) {
        Ok(digits) => digits,
        Err(_) => panic!(rt; "no prefix"),
    }
}

// The rate of this value.
fn amount(rt: &impl Abort, value: u64) -> Amount {
    match Amount::new(value) {
        Some(rate) => rate,
        None => panic!(rt; "no rate"),
    }
}

#[test]
fn packs_keys(rt: HostRuntime) {
    let cases: [(&[u8], u64); 3] = [
        (b"44", 0x4400000000000002),
        (b"1", 0x1000000000000001),
        (b"123456789012345", 0x123456789012345F),
    ];
    for (text, key) in cases {
        assert_eq!(rt; digits(&rt, text).key(), key);
    }
}

#[test]
fn tells_keys_from_other_words(rt: HostRuntime) {
    for word in [0, 0x4400000000000001, 0xA000000000000001] {
        assert!(rt; Digits::from_key(word).is_none());
    }
    match Digits::from_key(0x4400000000000003) {
        Some(found) => assert!(rt; found == digits(&rt, b"440")),
        None => panic!(rt; "no prefix"),
    }
}

#[test]
fn names_faults_of_texts(rt: HostRuntime) {
    let cases: [(&[u8], DigitsFault); 4] = [
        (b"", DigitsFault::Empty),
        (b"4a", DigitsFault::NotDigit(1)),
        (b"1234567890123456", DigitsFault::Long),
        (b"123456789012345x", DigitsFault::Long),
    ];
    for (text, fault) in cases {
        match Digits::read(text) {
            Ok(_) => panic!(rt; "a prefix"),
            Err(found) => assert!(rt; found == fault),
        }
    }
}

#[test]
fn reads_parts_of_a_number(rt: HostRuntime) {
    let number = digits(&rt, b"442071838750");
    assert_eq!(rt; number.len(), 12);
    assert_eq!(rt; number.digit(0), 4);
    assert_eq!(rt; number.digit(10), 5);
    let front = number.front(3);
    assert!(rt; front == digits(&rt, b"442"));
    assert!(rt; front.begins(&number));
    assert!(rt; number.begins(&number));
    assert!(rt; !number.begins(&front));
    assert!(rt; !digits(&rt, b"45").begins(&number));
}

#[test]
fn orders_prefixes(rt: HostRuntime) {
    let cases: [(&[u8], &[u8]); 3] = [(b"1", b"10"), (b"10", b"19"), (b"19", b"2")];
    for (lower, upper) in cases {
        assert!(rt; digits(&rt, lower) < digits(&rt, upper));
    }
}

#[test]
fn bounds_amounts(rt: HostRuntime) {
    for (value, accepted) in [
        (0, true),
        (1, true),
        (999_999_999_999, true),
        (1_000_000_000_000, false),
    ] {
        assert_eq!(rt; Amount::new(value).is_some(), accepted);
    }
}

#[test]
fn bounds_limits(rt: HostRuntime) {
    for (value, accepted) in [(0, false), (1, true), (1_000, true), (1_001, false)] {
        assert_eq!(rt; Limit::new(value).is_some(), accepted);
    }
}

#[test]
fn keeps_rows(rt: HostRuntime) {
    let mut rows = RowList::new(rt.alloc());
    assert!(rt; rows.is_empty());
    let row = Row {
        prefix: digits(&rt, b"44"),
        rate: amount(&rt, 1_000),
    };
    assert!(rt; rows.push(row).is_ok());
    match rows.try_copy() {
        Ok(copy) => {
            assert_eq!(rt; copy.len(), 1);
            assert!(rt; copy.get(0) == row);
        }
        Err(_) => panic!(rt; "no memory"),
    }
}

// The steps of two ticks, with a counter of its own.
fn ticks_twice<L: Ledger>(blank: Blank)
    requires blank_name { blank.name ≡ L.name }
    requires blank_parts { blank.parts ≡ L.parts }
    requires blank { 0 < blank.parts }
{
    let mut steps = Steps::<L>::new(blank);
    steps.tick();
    steps.tick();
}

#[test]
fn counts_steps_in_no_bytes(rt: HostRuntime) {
    ticks_twice::<Brand>(Blank::new(1));
    assert_eq!(rt; size_of::<Steps<Brand>>(), 0);
}

#[test]
fn writes_rows(rt: HostRuntime) -> Result<(), Fail> {
    let mut rows = RowList::new(rt.alloc());
    for (prefix, rate) in [(b"44", 5), (b"45", 6)] {
        rows.push(Row {
            prefix: digits(&rt, prefix),
            rate: amount(&rt, rate),
        })?;
    }
    let mut text = Vec::new(rt.alloc());
    text::append_rows(&rows, &mut text)?;
    assert!(rt; text.as_slice() == b"2 44 5 45 6".as_slice());
    Ok(())
}
