// The mode `deck`: worked decks, their faults, and the faults of streams.
use crate::tests::{ends_as, run, sink, words};
use palm_script::{MOST_BYTES, MemSource, SureSource};
use std::alloc::Global;
use std::test::Fail;

const SMALL: &str =
    "op,prefix,rate\r\nset,44,1000\r\n\"set\",\"441\",\"900\"\r\nset,44,1100\r\ndel,441,\r\n";

const SMALL_LEFT: &str = "op,prefix,rate\nset,44,1100\n";

#[test]
fn decks_leave_their_tables(rt: HostRuntime) -> Result<(), Fail> {
    let alloc = rt.alloc();
    for (deck, left) in [
        ("op,prefix,rate\n", "op,prefix,rate\n"),
        (SMALL, SMALL_LEFT),
        (&format!(in alloc; "\u{FEFF}{SMALL}")?, SMALL_LEFT),
        (
            "op,prefix,rate\nset,5,007\nset,0441,3\n\nset,044,0\ndel,9,",
            "op,prefix,rate\nset,044,0\nset,0441,3\nset,5,7\n",
        ),
    ] {
        ends_as(&rt, alloc, &["deck", "--batch=1"], deck, 0, left, "")?;
        ends_as(&rt, alloc, &["deck"], deck, 0, left, "")?;
    }
    Ok(())
}

// A deck of 5,000 rows from 1,004,999 down to 1,000,000, quoted and with CR LF, as a spreadsheet may write them.
fn falling_deck(alloc: Global) -> Result<String, Fail> {
    let mut deck = String::from_str(alloc, "op,prefix,rate\r\n")?;
    for rate in (0..5_000u32).rev() {
        let prefix = 1_000_000 + rate;
        deck.push_str(&format!(in alloc; "\"set\",\"{prefix}\",\"{rate}\"\r\n")?)?;
    }
    Ok(deck)
}

// The deck of a table that has the rows from 1,000,002 to 1,004,999 of these behind others.
fn deck_with(alloc: Global, others: &str) -> Result<String, Fail> {
    let mut deck = format!(in alloc; "op,prefix,rate\n{others}")?;
    for rate in 2..5_000u32 {
        let prefix = 1_000_000 + rate;
        deck.push_str(&format!(in alloc; "set,{prefix},{rate}\n")?)?;
    }
    Ok(deck)
}

#[test]
fn a_deck_as_a_carrier_has_it(rt: HostRuntime) -> Result<(), Fail> {
    let alloc = rt.alloc();
    let mut deck = falling_deck(alloc)?;
    deck.push_str("set,1000000,1\r\ndel,1000001,\r\n")?;
    let left = deck_with(alloc, "set,1000000,1\n")?;
    ends_as(&rt, alloc, &["deck", "--workers", "8"], &deck, 0, &left, "")
}

#[test]
fn a_faulty_deck_is_told_and_writes_nothing(rt: HostRuntime) -> Result<(), Fail> {
    for (deck, told) in [
        ("", "palm: row 1 fault 1\n"),
        ("op,prefix\n", "palm: row 1 fault 1\n"),
        ("\n\n", "palm: row 1 fault 1\n"),
        ("op,prefix,rate\nset,4\n", "palm: row 2 fault 2\n"),
        ("op,prefix,rate\nset,4,1\nset\n", "palm: row 3 fault 2\n"),
        ("op,prefix,rate\nset,4,1,2\n", "palm: row 2 fault 2\n"),
        ("op,prefix,rate\n\"\"\n", "palm: row 2 fault 2\n"),
        ("op,prefix,rate\nput,4,1\n", "palm: row 2 fault 3\n"),
        ("op,prefix,rate\nset,4x,7\n", "palm: row 2 fault 4\n"),
        ("op,prefix,rate\ndel,4,1\n", "palm: row 2 fault 5\n"),
        (
            "op,prefix,rate\nset,4,1\nset,5,-1\nset,x,1\n",
            "palm: row 3 fault 5\n",
        ),
    ] {
        ends_as(&rt, rt.alloc(), &["deck"], deck, 8, "", told)?;
    }
    Ok(())
}

// The reads give 60 bytes each: two for the deck, and one for its end.
#[test]
fn a_read_fault_writes_nothing(rt: HostRuntime) -> Result<(), Fail> {
    let alloc = rt.alloc();
    let all = words(alloc, &["deck"])?;
    for (number, status, left, told) in [
        (0, 4, "", "palm: read fault\n"),
        (1, 4, "", "palm: read fault\n"),
        (2, 4, "", "palm: read fault\n"),
        (3, 0, SMALL_LEFT, ""),
    ] {
        let mut fails = Vec::new(alloc);
        fails.push(number)?;
        let mut src = MemSource::new(Vec::from_slice(alloc, SMALL.as_bytes())?, 60, fails);
        let mut out = sink(alloc, 100, None)?;
        let mut err = sink(alloc, 100, None)?;
        let got = run(&rt, alloc, &all, &mut src, &mut out, &mut err);
        assert_eq!(rt; got, status, "read {number}");
        assert_eq!(rt; out.taken(), left.as_bytes(), "read {number}");
        assert_eq!(rt; err.taken(), told.as_bytes(), "read {number}");
    }
    Ok(())
}

// The writes take 15 bytes each, so that the first takes the header. Where a write takes all, it is the only one.
#[test]
fn each_write_of_a_deck_fails_in_turn(rt: HostRuntime) -> Result<(), Fail> {
    let alloc = rt.alloc();
    let all = words(alloc, &["deck"])?;
    for (most, number, status, taken) in [
        (15, 0, 5, 0),
        (15, 1, 5, 15),
        (15, 2, 0, 27),
        (100, 0, 5, 0),
        (100, 1, 0, 27),
    ] {
        let mut src = SureSource::new(Vec::from_slice(alloc, SMALL.as_bytes())?);
        let mut out = sink(alloc, most, Some(number))?;
        let mut err = sink(alloc, 100, None)?;
        let got = run(&rt, alloc, &all, &mut src, &mut out, &mut err);
        assert_eq!(rt; got, status, "write {number} of {most}");
        let left = SMALL_LEFT.as_bytes().get(..taken).unwrap_or(b"");
        assert_eq!(rt; out.taken(), left, "write {number} of {most}");
    }
    Ok(())
}

// Lines without bytes are no records, so that a deck may be as long as an input without a row.
#[test]
fn a_deck_of_a_byte_too_many(rt: HostRuntime) -> Result<(), Fail> {
    let alloc = rt.alloc();
    let all = words(alloc, &["deck"])?;
    for (more, status, left, told) in [
        (0, 0, SMALL_LEFT, ""),
        (1, 7, "", "palm: input too long\n"),
    ] {
        let mut bytes = Vec::from_slice(alloc, SMALL.as_bytes())?;
        bytes.resize(MOST_BYTES + more, b'\n')?;
        let mut src = SureSource::new(bytes);
        let mut out = sink(alloc, 100, None)?;
        let mut err = sink(alloc, 100, None)?;
        let got = run(&rt, alloc, &all, &mut src, &mut out, &mut err);
        assert_eq!(rt; got, status);
        assert_eq!(rt; out.taken(), left.as_bytes());
        assert_eq!(rt; err.taken(), told.as_bytes());
    }
    Ok(())
}
