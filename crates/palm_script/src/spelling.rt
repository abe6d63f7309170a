// Lines in their plain spelling, which reads back as the line.
ghost use Rattle.std.specs.Prelude.{◌≡◌, ◌++◌, OnOk, OnErr};
ghost use Rattle.palm_base.specs.Extends.{Extends};
ghost use Rattle.palm_script.specs.Spelling.{call_text, plain_text, line_text};
ghost use Rattle.palm_base.specs.Text.{digits_text};

use crate::line::Line;
use palm_base::text::{append, append_digits, append_number, append_rate, whole_or_nothing};
use palm_base::{Call, Digits, NoMemory};

// A word, and a prefix or a number after it.
fn append_dialled(word: &[u8], digits: &Digits, out: &mut Vec<u8>) -> Result<(), NoMemory>
    ensures ok { OnOk result (out.new.items ≡ out.old.items ++ (word.now ++ digits_text digits.now)) }
    ensures kept { Extends out.old.items out.new.items }
{
    append(word, out)?;
    append_digits(digits, out)
}

fn append_call(call: &Call, out: &mut Vec<u8>) -> Result<(), NoMemory>
    ensures ok { OnOk result (out.new.items ≡ out.old.items ++ call_text call.now) }
    ensures kept { Extends out.old.items out.new.items }
{
    match call {
        Call::Set { prefix, rate } => {
            append_dialled(b"set ", prefix, out)?;
            append_rate(b" ", rate, out)
        }
        Call::Del { prefix } => append_dialled(b"del ", prefix, out),
        Call::Get { prefix } => append_dialled(b"get ", prefix, out),
        Call::Rate { number } => append_dialled(b"rate ", number, out),
        Call::List { from, to, limit } => {
            append_dialled(b"list ", from, out)?;
            append_dialled(b" ", to, out)?;
            append(b" ", out)?;
            append_number(u64::from(limit.get()), out)
        }
    }
}

fn append_plain(line: &Line, out: &mut Vec<u8>) -> Result<(), NoMemory>
    ensures ok { OnOk result (out.new.items ≡ out.old.items ++ plain_text line.now) }
    ensures kept { Extends out.old.items out.new.items }
{
    match line {
        Line::Skip => Ok(()),
        Line::Made { caller, call } => {
            append_number(u64::from(*caller), out)?;
            append(b" ", out)?;
            append_call(call, out)
        }
        Line::Cut => append(b"cut", out),
        Line::Dump => append(b"dump", out),
    }
}

fn append_line(line: &Line, out: &mut Vec<u8>) -> Result<(), NoMemory>
    ensures ok { OnOk result (out.new.items ≡ out.old.items ++ line_text line.now) }
    ensures kept { Extends out.old.items out.new.items }
{
    append_plain(line, out)?;
    append(b"\n", out)
}

/// Appends a line in its plain spelling, and a line feed after it. There is one blank between fields, numbers have
/// no leading zeros, and of `Line::Skip` there is the line feed alone. Where the caller is at most `MOST_CALLER`,
/// `read_line` gives the line back (`laws::lines_read_back`). `out` is unchanged where memory is refused.
pub fn print_line(line: &Line, out: &mut Vec<u8>) -> Result<(), NoMemory>
    ensures ok { OnOk result (out.new.items ≡ out.old.items ++ line_text line.now) }
    ensures err { OnErr result (out.new.items ≡ out.old.items) }
{
    let before = out.len();
    let printed = append_line(line, out);
    whole_or_nothing(before, printed, out)
}
