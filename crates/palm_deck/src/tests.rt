// What decks say, the faults of other bytes, and tables written as decks.
use crate::{Deck, DeckFault, DeckWhy, read_deck, write_deck};
use palm_base::{Amount, Call, Digits, Entry, Row, RowList};
use std::alloc::Global;
use std::process::Abort;
use std::test::Fail;

fn dialled(rt: &impl Abort, text: &str) -> Digits {
    Digits::read(text.as_bytes()).expect(rt, "a prefix")
}

fn set(rt: &impl Abort, prefix: &str, rate: u64) -> Call {
    let prefix = dialled(rt, prefix);
    let rate = Amount::new(rate).expect(rt, "a rate");
    Call::Set { prefix, rate }
}

fn del(rt: &impl Abort, prefix: &str) -> Call {
    let prefix = dialled(rt, prefix);
    Call::Del { prefix }
}

fn row(rt: &impl Abort, prefix: &str, rate: u64) -> Row {
    let prefix = dialled(rt, prefix);
    let rate = Amount::new(rate).expect(rt, "a rate");
    Row { prefix, rate }
}

fn read(rt: &impl Abort, alloc: Global, bytes: &[u8]) -> Deck {
    read_deck(alloc, bytes).expect(rt, "a deck")
}

// The deck says these edits, as calls of caller 0 with the places 0, 1, 2 and so on.
fn says(rt: &impl Abort, deck: &Deck, calls: &[Call]) {
    assert_eq!(rt; deck.len(), calls.len());
    for (i, call) in calls.iter().enumerate() {
        let entry = Entry {
            caller: 0,
            place: i as u64,
            call: *call,
        };
        assert_eq!(rt; deck.as_slice().get(i).copied(), Some(entry));
    }
}

#[test]
fn decks_say_edits(rt: HostRuntime) -> Result<(), Fail> {
    let alloc = rt.alloc();
    let small = [
        set(&rt, "44", 1_000),
        set(&rt, "441", 900),
        set(&rt, "44", 1_100),
        del(&rt, "441"),
    ];
    for bytes in [
        b"op,prefix,rate\r\nset,44,1000\r\n\"set\",\"441\",\"900\"\r\nset,44,1100\r\ndel,441,\r\n".as_slice(),
        b"\xEF\xBB\xBFop,prefix,rate\r\nset,44,1000\r\n\"set\",\"441\",\"900\"\r\nset,44,1100\r\ndel,441,\r\n".as_slice(),
        // `csv` drops a second mark by itself.
        b"\xEF\xBB\xBF\xEF\xBB\xBFop,prefix,rate\nset,44,1000\nset,441,900\nset,44,1100\ndel,441,\n".as_slice(),
        // Lines without bytes are no records, and the last line need not end.
        b"\n\nop,\"prefix\",rate\n\nset,44,00000000000000001000\nset,441,900\n\nset,44,1100\n\"del\",441,\"\"".as_slice(),
    ] {
        says(&rt, &read(&rt, alloc, bytes), &small);
    }
    let none = read(&rt, alloc, b"op,prefix,rate\n");
    assert!(rt; none.is_empty());
    let most = read(
        &rt,
        alloc,
        b"op,prefix,rate\nset,123456789012345,999999999999\n",
    );
    says(&rt, &most, &[set(&rt, "123456789012345", 999_999_999_999)]);
    let entries = most.into_list();
    assert_eq!(rt; entries.len(), 1);
    Ok(())
}

// The first fault of bytes that are no deck is this one.
fn assert_fault(rt: &impl Abort, alloc: Global, bytes: &[u8], row: u64, why: DeckWhy) {
    match read_deck(alloc, bytes) {
        Ok(_) => panic!(rt; "a deck"),
        Err(fault) => assert_eq!(rt; fault, DeckFault::Bad { row, why }),
    }
}

#[test]
fn bytes_without_a_header_are_no_deck(rt: HostRuntime) -> Result<(), Fail> {
    for bytes in [
        b"".as_slice(),
        b"\n\n".as_slice(),
        b"set,4,7\n".as_slice(),
        b"op,prefix\n".as_slice(),
        b"op,prefix,rate,\n".as_slice(),
        b"Op,prefix,rate\n".as_slice(),
        b"op, prefix,rate\n".as_slice(),
        b"\xEF\xBB\xBF\xEF\xBB\xBF\xEF\xBB\xBFop,prefix,rate\n".as_slice(),
    ] {
        assert_fault(&rt, rt.alloc(), bytes, 1, DeckWhy::Header);
    }
    Ok(())
}

#[test]
fn other_records_have_a_first_fault(rt: HostRuntime) -> Result<(), Fail> {
    for (bytes, why) in [
        (b"op,prefix,rate\nset,4\n".as_slice(), DeckWhy::Fields),
        (b"op,prefix,rate\nput,4x,1,\n".as_slice(), DeckWhy::Fields),
        (b"op,prefix,rate\nput,4,1\n".as_slice(), DeckWhy::Op),
        (b"op,prefix,rate\nSet,4x,1\n".as_slice(), DeckWhy::Op),
        (b"op,prefix,rate\n,,\n".as_slice(), DeckWhy::Op),
        (b"op,prefix,rate\nset,4x,7\n".as_slice(), DeckWhy::Prefix),
        (b"op,prefix,rate\nset,,-1\n".as_slice(), DeckWhy::Prefix),
        (
            b"op,prefix,rate\nset,1234567890123456,7\n".as_slice(),
            DeckWhy::Prefix,
        ),
        (b"op,prefix,rate\ndel,4x,1\n".as_slice(), DeckWhy::Prefix),
        (b"op,prefix,rate\ndel,4,1\n".as_slice(), DeckWhy::Rate),
        (b"op,prefix,rate\nset,4,\n".as_slice(), DeckWhy::Rate),
        (b"op,prefix,rate\nset,4, 7\n".as_slice(), DeckWhy::Rate),
        (
            b"op,prefix,rate\nset,4,1000000000000\n".as_slice(),
            DeckWhy::Rate,
        ),
        (
            b"op,prefix,rate\nset,4,000000000000000000007\n".as_slice(),
            DeckWhy::Rate,
        ),
    ] {
        assert_fault(&rt, rt.alloc(), bytes, 2, why);
    }
    Ok(())
}

// Lines without bytes are no records.
#[test]
fn the_first_faulty_record_counts(rt: HostRuntime) -> Result<(), Fail> {
    let bytes = b"op,prefix,rate\n\nset,4,1\n\nset,4,x\nput,4,1\n".as_slice();
    assert_fault(&rt, rt.alloc(), bytes, 3, DeckWhy::Rate);
    Ok(())
}

#[test]
fn faults_are_told(rt: HostRuntime) -> Result<(), Fail> {
    let fault = DeckFault::Bad {
        row: 2,
        why: DeckWhy::Prefix,
    };
    let refused = DeckFault::NoMemory;
    assert_eq!(rt;
        format!(in rt.alloc(); "{fault}")?.as_str(),
        "row 2 fault 4"
    );
    assert_eq!(rt; format!(in rt.alloc(); "{refused}")?.as_str(), "no memory");
    Ok(())
}

#[test]
fn rows_are_written_and_read_back(rt: HostRuntime) -> Result<(), Fail> {
    let alloc = rt.alloc();
    let mut rows = RowList::new(alloc);
    let none = write_deck(alloc, &rows)?;
    assert!(rt; none.as_slice() == b"op,prefix,rate\n".as_slice());
    rows.push(row(&rt, "044", 0))?;
    rows.push(row(&rt, "4", 1_000))?;
    rows.push(row(&rt, "999999999999999", 999_999_999_999))?;
    let text = write_deck(alloc, &rows)?;
    assert!(rt;
        text.as_slice()
            == b"op,prefix,rate\nset,044,0\nset,4,1000\nset,999999999999999,999999999999\n".as_slice()
    );
    let deck = read(&rt, alloc, text.as_slice());
    says(
        &rt,
        &deck,
        &[
            set(&rt, "044", 0),
            set(&rt, "4", 1_000),
            set(&rt, "999999999999999", 999_999_999_999),
        ],
    );
    Ok(())
}
