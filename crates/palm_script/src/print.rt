// The lines of a transcript. Each is appended whole or not at all.
ghost use Rattle.std.specs.Prelude.{◌≡◌, ◌++◌, OnOk, OnErr};
ghost use Rattle.palm_base.specs.Extends.{Extends};
ghost use Rattle.palm_script.specs.Transcript.{answer_text, reply_line, batch_line, end_line};

use palm_base::text::{
    append, append_number, append_rate, append_row, append_rows, whole_or_nothing,
};
use palm_base::{NoMemory, Reply};

fn append_answer(reply: &Reply, out: &mut Vec<u8>) -> Result<(), NoMemory>
    ensures ok { OnOk result (out.new.items ≡ out.old.items ++ answer_text reply.now) }
    ensures kept { Extends out.old.items out.new.items }
{
    match reply {
        Reply::New => append(b"new", out),
        Reply::Was(rate) => append_rate(b"was ", rate, out),
        Reply::Gone(rate) => append_rate(b"gone ", rate, out),
        Reply::Absent => append(b"absent", out),
        Reply::Value(rate) => append_rate(b"value ", rate, out),
        Reply::Hit(row) => append_row(row, out),
        Reply::Rows(rows) => {
            append(b"rows ", out)?;
            append_rows(rows, out)
        }
    }
}

fn append_reply_line(n: u64, caller: u32, reply: &Reply, out: &mut Vec<u8>) -> Result<(), NoMemory>
    ensures ok { OnOk result (out.new.items ≡ out.old.items ++ reply_line n caller reply.now) }
    ensures kept { Extends out.old.items out.new.items }
{
    append_number(n, out)?;
    append(b" ", out)?;
    append_number(u64::from(caller), out)?;
    append(b" ", out)?;
    append_answer(reply, out)?;
    append(b"\n", out)
}

fn append_batch_line(k: u32, out: &mut Vec<u8>) -> Result<(), NoMemory>
    ensures ok { OnOk result (out.new.items ≡ out.old.items ++ batch_line k) }
    ensures kept { Extends out.old.items out.new.items }
{
    append(b"= ", out)?;
    append_number(u64::from(k), out)?;
    append(b"\n", out)
}

fn append_end_line(calls: u64, rows: u64, out: &mut Vec<u8>) -> Result<(), NoMemory>
    ensures ok { OnOk result (out.new.items ≡ out.old.items ++ end_line calls rows) }
    ensures kept { Extends out.old.items out.new.items }
{
    append(b"end ", out)?;
    append_number(calls, out)?;
    append(b" ", out)?;
    append_number(rows, out)?;
    append(b"\n", out)
}

/// Appends the line of a call: its number in the history, counted from 0, its caller and what it was answered.
/// `out` is unchanged where memory is refused.
pub fn print_reply(n: u64, caller: u32, reply: &Reply, out: &mut Vec<u8>) -> Result<(), NoMemory>
    ensures ok { OnOk result (out.new.items ≡ out.old.items ++ reply_line n caller reply.now) }
    ensures err { OnErr result (out.new.items ≡ out.old.items) }
{
    let before = out.len();
    let printed = append_reply_line(n, caller, reply, out);
    whole_or_nothing(before, printed, out)
}

/// Appends the line after a batch of `k` calls. `out` is unchanged where memory is refused.
pub fn print_batch(k: u32, out: &mut Vec<u8>) -> Result<(), NoMemory>
    ensures ok { OnOk result (out.new.items ≡ out.old.items ++ batch_line k) }
    ensures err { OnErr result (out.new.items ≡ out.old.items) }
{
    let before = out.len();
    let printed = append_batch_line(k, out);
    whole_or_nothing(before, printed, out)
}

/// Appends the last line: the number of calls, and of rows in the table. `out` is unchanged where memory is refused.
pub fn print_end(calls: u64, rows: u64, out: &mut Vec<u8>) -> Result<(), NoMemory>
    ensures ok { OnOk result (out.new.items ≡ out.old.items ++ end_line calls rows) }
    ensures err { OnErr result (out.new.items ≡ out.old.items) }
{
    let before = out.len();
    let printed = append_end_line(calls, rows, out);
    whole_or_nothing(before, printed, out)
}
