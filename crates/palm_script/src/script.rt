// What a script says as a whole: calls in sections, up to the first faulty line.
ghost use Rattle.std.specs.Prelude.{◌≡◌, ◌≤◌, ◌<◌, ◌+◌, ◌∷◌, [], ◌++◌, false, length};
ghost use Rattle.std.specs.Prelude.{sum_by, position, All, MatchOption, IfSome, IfNone, IfOk, OnOk};
ghost use Rattle.palm_script.specs.Script.{is_feed, without_return as without, lines_of, next_entry, script_of};
ghost use Rattle.palm_script.specs.Script.{AreCounts, Says};

use crate::input::MOST_BYTES;
use crate::line::{Line, LineFault, MOST_CALLER, MOST_CALLERS, read_line};
use palm_base::{Call, Entry, NoMemory};
use std::alloc::Global;

/// Where a section of a script ends: at a `cut` or a `dump` line.
#[derive(Clone, Copy, Debug, PartialEq, Eq)]
pub struct SectionEnd {
    /// The number of the section's calls.
    pub calls: u32,
    /// Whether it is a `dump` line.
    pub dumps: bool,
}

/// What a script says: the calls of its lines before the first faulty one, the sections in which they stand, and
/// the fault of that line.
#[derive(Debug, Drop)]
pub struct Script {
    /// The calls in the order of their lines, each with its place among its caller's calls.
    pub entries: Vec<Entry>,
    /// The ends of the sections, in order. The calls behind the last end are a section too.
    pub ends: Vec<SectionEnd>,
    /// The fault of the first faulty line. None where each line is good.
    pub fault: Option<LineFault>,
}

fn first_feed(text: &[u8]) -> Option<usize>
    ensures place { result ≡ position is_feed text.now }
    ensures inside { IfSome result (λ i. i < length text.now) }
    ensures none { IfNone result (All (λ b. is_feed b ≡ false) text.now) }
{
    text.iter().position(|b| *b == b'\n')
}

fn without_return(text: &[u8]) -> &[u8]
    ensures { result.now ≡ without text.now }
{
    match text {
        [front @ .., b'\r'] => front,
        _ => text,
    }
}

// The first line, without its ending, and what stands behind it.
fn next_line(text: &[u8], whole: bool) -> Option<(&[u8], &[u8])>
    ensures next { MatchOption result (lines_of text.now whole ≡ []) (λ x.
        lines_of text.now whole ≡ x.0.now ∷ lines_of x.1.now whole) }
    ensures shorter { IfSome result (λ x. length x.1.now < length text.now) }
{
    match first_feed(text) {
        Some(i) => Some((without_return(&text[..i]), &text[i + 1..])),
        None if whole && !text.is_empty() => Some((without_return(text), &[])),
        None => None,
    }
}

// Adds a caller's next call. `counts` has the number of each caller's calls so far.
fn add_entry(
    entries: &mut Vec<Entry>,
    counts: &mut [u64; MOST_CALLERS],
    caller: u32,
    call: Call,
) -> Result<(), NoMemory>
    requires caller { caller ≤ MOST_CALLER }
    requires counts { AreCounts counts.old entries.old.items }
    requires few { length entries.old.items ≤ MOST_BYTES }
    ensures added { OnOk result
        (entries.new.items ≡ entries.old.items ++ next_entry entries.old.items caller call ∷
        []) }
    ensures counts { OnOk result (AreCounts counts.new entries.new.items) }
{
    let place = counts[caller as usize];
    entries.push(Entry {
        caller,
        place,
        call,
    })?;
    counts[caller as usize] = place + 1;
    Ok(())
}

// Adds the end of the section under way, which has `calls` calls. A new one with none begins.
fn end_section(ends: &mut Vec<SectionEnd>, calls: &mut u32, dumps: bool) -> Result<(), NoMemory>
    ensures added { OnOk result
        (ends.new.items ≡ ends.old.items ++ (record { calls = calls.old; dumps = dumps }) ∷
        []) }
    ensures zero { OnOk result (calls.new ≡ 0) }
{
    ends.push(SectionEnd {
        calls: *calls,
        dumps,
    })?;
    *calls = 0;
    Ok(())
}

/// Reads the lines of a script up to the first faulty one.
///
/// Where the text isn't `whole`, as when its source failed, the bytes after its last line feed are no line. Beside
/// `NoMemory`, which leaves nothing behind, there is no error: a faulty line is part of what the script says.
pub fn read_script(alloc: Global, text: &[u8], whole: bool) -> Result<Script, NoMemory>
    requires { length text.now ≤ MOST_BYTES }
    ensures says { IfOk result (λ script. Says (script_of text.now whole) script) }
    ensures few { IfOk result (λ script. length script.entries.items ≤ length text.now) }
    ensures within { IfOk result (λ script.
        sum_by (λ end. end.calls) script.ends.items ≤ length script.entries.items) }
{
    let mut entries = Vec::new(alloc);
    let mut ends = Vec::new(alloc);
    let mut counts = [0u64; MOST_CALLERS];
    let mut calls = 0u32;
    let mut line = 1u64;
    let mut rest = text;
    while let Some((first, after)) = next_line(rest, whole) {
        match read_line(first, line) {
            Ok(Line::Skip) => {}
            Ok(Line::Made { caller, call }) => {
                add_entry(&mut entries, &mut counts, caller, call)?;
                calls += 1;
            }
            Ok(Line::Cut) => end_section(&mut ends, &mut calls, false)?,
            Ok(Line::Dump) => end_section(&mut ends, &mut calls, true)?,
            Err(fault) => {
                return Ok(Script {
                    entries,
                    ends,
                    fault: Some(fault),
                });
            }
        }
        line += 1;
        rest = after;
    }
    Ok(Script {
        entries,
        ends,
        fault: None,
    })
}

#[cfg(test)]
mod tests {
    use super::*;
    use std::process::Abort;
    use std::test::Fail;

    // Appends entries, each as `caller:place`.
    fn show_entries(alloc: Global, entries: &[Entry], shown: &mut String) -> Result<(), Fail> {
        for entry in entries {
            let caller = entry.caller;
            let place = entry.place;
            shown.push_str(&format!(in alloc; " {caller}:{place}")?)?;
        }
        Ok(())
    }

    // Appends ends of sections, each as `|calls`, or `!calls` where it dumps.
    fn show_ends(alloc: Global, ends: &[SectionEnd], shown: &mut String) -> Result<(), Fail> {
        for end in ends {
            let mark = if end.dumps { "!" } else { "|" };
            let calls = end.calls;
            shown.push_str(&format!(in alloc; " {mark}{calls}")?)?;
        }
        Ok(())
    }

    // A script has these entries and ends, and its fault is on this line.
    fn reads(
        rt: &impl Abort,
        alloc: Global,
        text: &str,
        whole: bool,
        entries: &str,
        line: Option<u64>,
    ) -> Result<(), Fail> {
        let bytes = text.as_bytes();
        assert!(rt; bytes.len() <= MOST_BYTES);
        let script = read_script(alloc, bytes, whole)?;
        let mut shown = String::new(alloc);
        show_entries(alloc, &script.entries, &mut shown)?;
        show_ends(alloc, &script.ends, &mut shown)?;
        assert_eq!(rt; shown.as_str(), entries, "{text}");
        assert_eq!(rt; script.fault.map(|fault| fault.line), line, "{text}");
        Ok(())
    }

    #[test]
    fn scripts(rt: HostRuntime) -> Result<(), Fail> {
        for (text, whole, entries, line) in [
            ("", true, "", None),
            ("\r\n", true, "", None),
            (
                "0 get 4\r\n1 set 4 5\r\n0 del 4\r\n",
                true,
                " 0:0 1:0 0:1",
                None,
            ),
            ("0 get 4\n0 get 5", true, " 0:0 0:1", None),
            ("0 get 4\n0 get 5", false, " 0:0", None),
            ("0 get 4\nget", true, " 0:0", Some(2)),
            ("0 get 4\nget", false, " 0:0", None),
            (
                "\n\n# note\n 5 get 4\n\n5 get\n5 get 4\n",
                false,
                " 5:0",
                Some(6),
            ),
            ("cut\n dump\ncut", true, " |0 !0 |0", None),
            (
                "1 get 4\n2 get 4\ncut\n1 get 4\ndump\r\n2 get 4\ncut 1\ncut\n",
                true,
                " 1:0 2:0 1:1 2:1 |2 !1",
                Some(7),
            ),
            (
                "63 get 1\n2 get 1\n63 del 1\n2 del 1\n63 get 1\n",
                true,
                " 63:0 2:0 63:1 2:1 63:2",
                None,
            ),
        ] {
            reads(&rt, rt.alloc(), text, whole, entries, line)?;
        }
        Ok(())
    }

    // Bytes that are no text, NULs, tabs and carriage returns. Each script is given with the number of its calls,
    // and the line and the code of its fault.
    #[test]
    fn any_bytes(rt: HostRuntime) -> Result<(), Fail> {
        let none: Option<(u64, u8)> = None;
        for (number, (text, calls, fault)) in [
            (b"\xff\xfe\n0 get 4\n".as_slice(), 0, Some((1, 1))),
            (b"0 get 4\n\x00\n", 1, Some((2, 1))),
            (b"0 get 4\x00\n", 0, Some((1, 4))),
            (b"# \xff\x00\n0 get 4\n", 1, none),
            (b"\x00# no note\n", 0, Some((1, 1))),
            (b"0\tget\t4\t\n\t\n", 1, none),
            (b"0\x0bget 4\n", 0, Some((1, 1))),
            (b"0 get 4\r", 1, none),
            (b"0 get 4\r\r\n", 0, Some((1, 4))),
            (b"0 get 4\r0 get 5\n", 0, Some((1, 3))),
            (b"\r\r\n", 0, Some((1, 1))),
            (b"\n\r\n\ncut\r\n0 get 4\r", 1, none),
        ]
        .iter()
        .enumerate()
        {
            assert!(rt; text.len() <= MOST_BYTES);
            let script = read_script(rt.alloc(), text, true)?;
            assert_eq!(rt; script.entries.len(), *calls, "script {number}");
            let found = script.fault.map(|fault| (fault.line, fault.why as u8));
            assert_eq!(rt; found, *fault, "script {number}");
        }
        Ok(())
    }
}
