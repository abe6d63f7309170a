// Lines and replies as they are printed, and sources and sinks that give, take and fail in pieces.
use super::*;
use palm_base::{Amount, Call, Digits, Limit, Reply, Row, RowList};
use std::alloc::Global;
use std::io::{self, ErrorKind, Write};
use std::process::Abort;
use std::test::Fail;

fn bytes(alloc: Global, text: &str) -> Result<Vec<u8>, Fail> {
    Ok(Vec::from_slice(alloc, text.as_bytes())?)
}

fn numbers(alloc: Global, list: &[u64]) -> Result<Vec<u64>, Fail> {
    Ok(Vec::from_slice(alloc, list)?)
}

fn amount(rt: &impl Abort, value: u64) -> Amount {
    Amount::new(value).expect(rt, "a rate")
}

fn dialled(rt: &impl Abort, text: &str) -> Digits {
    Digits::read(text.as_bytes()).expect(rt, "a prefix")
}

fn row(rt: &impl Abort, prefix: &str, rate: u64) -> Row {
    Row {
        prefix: dialled(rt, prefix),
        rate: amount(rt, rate),
    }
}

fn set(rt: &impl Abort, caller: u32, prefix: &str, rate: u64) -> Line {
    let prefix = dialled(rt, prefix);
    let rate = amount(rt, rate);
    Line::Made {
        caller,
        call: Call::Set { prefix, rate },
    }
}

fn del(rt: &impl Abort, caller: u32, prefix: &str) -> Line {
    let prefix = dialled(rt, prefix);
    Line::Made {
        caller,
        call: Call::Del { prefix },
    }
}

fn get(rt: &impl Abort, caller: u32, prefix: &str) -> Line {
    let prefix = dialled(rt, prefix);
    Line::Made {
        caller,
        call: Call::Get { prefix },
    }
}

fn rate(rt: &impl Abort, caller: u32, number: &str) -> Line {
    let number = dialled(rt, number);
    Line::Made {
        caller,
        call: Call::Rate { number },
    }
}

fn list(rt: &impl Abort, caller: u32, from: &str, to: &str, limit: u32) -> Line {
    let from = dialled(rt, from);
    let to = dialled(rt, to);
    let limit = Limit::new(limit).expect(rt, "a limit");
    Line::Made {
        caller,
        call: Call::List { from, to, limit },
    }
}

#[test]
fn lines_are_printed_and_read_back(rt: HostRuntime) -> Result<(), Fail> {
    let alloc = rt.alloc();
    let mut out = Vec::new(alloc);
    for (line, text) in [
        (Line::Skip, ""),
        (Line::Cut, "cut"),
        (Line::Dump, "dump"),
        (set(&rt, 0, "0", 0), "0 set 0 0"),
        (
            set(&rt, 63, "999999999999999", 999_999_999_999),
            "63 set 999999999999999 999999999999",
        ),
        (del(&rt, 9, "044"), "9 del 044"),
        (get(&rt, 10, "44"), "10 get 44"),
        (rate(&rt, 7, "123456789012345"), "7 rate 123456789012345"),
        (list(&rt, 1, "4", "045", 1), "1 list 4 045 1"),
        (
            list(&rt, 62, "000000000000000", "9", 1_000),
            "62 list 000000000000000 9 1000",
        ),
    ] {
        out.clear();
        print_line(&line, &mut out)?;
        let printed = out.strip_suffix(b"\n").expect(&rt, "a line feed");
        assert_eq!(rt; printed, text.as_bytes());
        assert_eq!(rt; read_line(printed, 7), Ok(line), "{text}");
    }
    Ok(())
}

#[test]
fn replies_are_printed(rt: HostRuntime) -> Result<(), Fail> {
    let alloc = rt.alloc();
    let mut rows = RowList::new(alloc);
    rows.push(row(&rt, "12", 12))?;
    rows.push(row(&rt, "013", 0))?;
    let mut out = Vec::new(alloc);
    print_reply(0, 0, &Reply::New, &mut out)?;
    print_reply(1, 63, &Reply::Was(amount(&rt, 999_999_999_999)), &mut out)?;
    print_reply(2, 7, &Reply::Gone(amount(&rt, 0)), &mut out)?;
    print_reply(10, 7, &Reply::Absent, &mut out)?;
    print_reply(11, 7, &Reply::Value(amount(&rt, 5)), &mut out)?;
    print_reply(12, 7, &Reply::Hit(row(&rt, "44", 1_000)), &mut out)?;
    print_reply(u64::MAX, 7, &Reply::Rows(rows), &mut out)?;
    print_reply(14, 7, &Reply::Rows(RowList::new(alloc)), &mut out)?;
    print_batch(8, &mut out)?;
    print_end(8, 2, &mut out)?;
    let lines =
        "0 0 new\n1 63 was 999999999999\n2 7 gone 0\n10 7 absent\n11 7 value 5\n12 7 44 1000\n18446744073709551615 7 rows 2 12 12 013 0\n14 7 rows 0\n= 8\nend 8 2\n";
    assert_eq!(rt; out.as_slice(), lines.as_bytes());
    Ok(())
}

// Reads of 3 bytes, of which the reads 1 and 3 fail.
#[test]
fn a_source_in_memory_gives_pieces_and_fails_where_chosen(rt: HostRuntime) -> Result<(), Fail> {
    let alloc = rt.alloc();
    let mut src = MemSource::new(bytes(alloc, "abcdefgh")?, 3, numbers(alloc, &[1, 3])?);
    for (room, want) in [
        (2, Ok("ab")),
        (9, Err(Failed)),
        (9, Ok("cde")),
        (9, Err(Failed)),
        (9, Ok("fgh")),
        (9, Ok("")),
    ] {
        let mut buf = [0u8; 9];
        let got = src.read(&mut buf[..room]);
        match want {
            Ok(text) => assert_eq!(rt; buf.get(..got?), Some(text.as_bytes())),
            Err(failed) => assert_eq!(rt; got, Err(failed)),
        }
    }
    Ok(())
}

// Writes of 3 bytes into room for 7, of which the write 1 fails.
#[test]
fn a_sink_in_memory_takes_pieces_and_fails_where_chosen(rt: HostRuntime) -> Result<(), Fail> {
    let alloc = rt.alloc();
    let mut out = MemSink::new(alloc, 7, 3, numbers(alloc, &[1])?)?;
    for (part, want) in [
        ("abcd", Ok(3)),
        ("d", Err(Failed)),
        ("de", Ok(2)),
        ("fgh", Ok(2)),
        ("", Ok(0)),
        ("h", Err(Failed)),
    ] {
        assert_eq!(rt; out.write(part.as_bytes()), want, "{part}");
    }
    assert_eq!(rt; out.taken(), b"abcdefg".as_slice());
    Ok(())
}

#[test]
fn sure_and_null_forms_never_fail(rt: HostRuntime) -> Result<(), Fail> {
    let alloc = rt.alloc();
    let mut src = SureSource::new(bytes(alloc, "abc")?);
    let mut buf = [0u8; 2];
    assert_eq!(rt; src.read(&mut buf), Ok(2));
    assert_eq!(rt; buf, *b"ab");
    assert_eq!(rt; src.read(&mut buf), Ok(1));
    assert_eq!(rt; src.read(&mut buf), Ok(0));
    assert_eq!(rt; NullSink.write(b"abc"), Ok(3));
    Ok(())
}

#[test]
fn a_source_is_read_to_its_end_or_fault(rt: HostRuntime) -> Result<(), Fail> {
    let alloc = rt.alloc();
    for (fail, text, end) in [
        (9, "abcdefgh", InputEnd::Whole),
        (2, "abcdef", InputEnd::Failed),
    ] {
        let mut src = MemSource::new(bytes(alloc, "abcdefgh")?, 3, numbers(alloc, &[fail])?);
        let input = read_input(alloc, &mut src)?;
        assert_eq!(rt; input.bytes.as_slice(), text.as_bytes());
        assert_eq!(rt; input.end, end);
    }
    Ok(())
}

// A source that gives a byte at each read but the second, which ends the input, as a terminal may.
#[derive(Drop)]
struct Resumed {
    reads: u64,
}

impl Source for Resumed {
    ghost use Rattle.std.specs.Prelude.{None};

    ghost left = { λ _. None };

    ghost faults = { λ _. 0 };

    fn read(&mut self, buf: &mut [u8]) -> Result<usize, Failed> {
        self.reads = self.reads.saturating_add(1);
        if self.reads == 2 || buf.is_empty() {
            return Ok(0);
        }
        buf[0] = b'a';
        Ok(1)
    }
}

#[test]
fn no_read_follows_the_end_of_input(rt: HostRuntime) -> Result<(), Fail> {
    let mut src = Resumed { reads: 0 };
    let input = read_input(rt.alloc(), &mut src)?;
    assert_eq!(rt; input.bytes.as_slice(), b"a".as_slice());
    assert_eq!(rt; input.end, InputEnd::Whole);
    assert_eq!(rt; src.reads, 2);
    Ok(())
}

// Reads of 3 bytes, of which the reads 1 and 2 fail. Read 2 is still to come after the reading, and so is what
// follows it.
#[test]
fn no_read_follows_a_fault(rt: HostRuntime) -> Result<(), Fail> {
    let alloc = rt.alloc();
    let mut src = MemSource::new(bytes(alloc, "abcdefgh")?, 3, numbers(alloc, &[1, 2])?);
    let input = read_input(alloc, &mut src)?;
    assert_eq!(rt; input.bytes.as_slice(), b"abc".as_slice());
    assert_eq!(rt; input.end, InputEnd::Failed);
    let mut buf = [0u8; 3];
    assert_eq!(rt; src.read(&mut buf), Err(Failed));
    assert_eq!(rt; src.read(&mut buf), Ok(3));
    assert_eq!(rt; buf, *b"def");
    Ok(())
}

#[test]
fn what_was_not_taken_is_offered_again(rt: HostRuntime) -> Result<(), Fail> {
    let alloc = rt.alloc();
    let mut out = MemSink::new(alloc, 8, 3, Vec::new(alloc))?;
    assert_eq!(rt; write_all(&mut out, b"abcdefgh"), Ok(()));
    assert_eq!(rt; write_all(&mut out, b""), Ok(()));
    assert_eq!(rt; write_all(&mut out, b"i"), Err(Failed));
    assert_eq!(rt; out.taken(), b"abcdefgh".as_slice());
    Ok(())
}

// The forms over std's readers and writers, here in memory.
#[test]
fn standard_forms_pass_bytes_on(rt: HostRuntime) -> Result<(), Fail> {
    let alloc = rt.alloc();
    let mut src = StdSource::new(b"abc".as_slice());
    let mut buf = [0u8; 2];
    assert_eq!(rt; src.read(&mut buf), Ok(2));
    assert_eq!(rt; buf, *b"ab");
    assert_eq!(rt; src.read(&mut buf), Ok(1));
    assert_eq!(rt; src.read(&mut buf), Ok(0));
    let mut taken = Vec::new(alloc);
    let mut out = StdSink::new(&mut taken);
    assert_eq!(rt; out.write(b"abc"), Ok(3));
    assert_eq!(rt; out.write(b""), Ok(0));
    assert_eq!(rt; taken.as_slice(), b"abc".as_slice());
    Ok(())
}

// A writer that takes all, counts its flushes, and fails at the flush of this number, counted from 0.
#[derive(Drop)]
struct Flushed {
    flushes: u64,
    fail: u64,
}

impl Write for Flushed {
    fn write(&mut self, buf: &[u8]) -> io::Result<usize> {
        Ok(buf.len())
    }

    fn flush(&mut self) -> io::Result<()> {
        let fails = self.flushes == self.fail;
        self.flushes = self.flushes.saturating_add(1);
        if fails {
            return Err(io::Error::from(ErrorKind::Other));
        }
        Ok(())
    }
}

#[test]
fn each_standard_write_is_flushed_and_fails_where_its_flush_does(
    rt: HostRuntime,
) -> Result<(), Fail> {
    let mut writer = Flushed {
        flushes: 0,
        fail: 1,
    };
    let mut out = StdSink::new(&mut writer);
    for (part, want) in [
        ("abc", Ok(3)),
        ("de", Err(Failed)),
        ("f", Ok(1)),
        ("", Ok(0)),
    ] {
        assert_eq!(rt; out.write(part.as_bytes()), want, "{part}");
    }
    assert_eq!(rt; writer.flushes, 4);
    Ok(())
}
