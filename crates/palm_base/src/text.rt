//! How prefixes, rates and rows are written, at the end of a buffer. Where memory is refused, part of a text may
//! stand there behind what stood there before, which the caller takes back by `whole_or_nothing`.

ghost use Rattle.std.specs.Prelude.{◌≡◌, ◌++◌, take, OnOk, OnErr};
ghost use Rattle.std.specs.Fmt.{decimal};
ghost use Rattle.palm_base.specs.Extends.{Extends};
ghost use Rattle.palm_base.specs.Text.{digits_text, row_text, listed_row_text, rows_text};

use crate::amount::Amount;
use crate::digits::Digits;
use crate::memory::NoMemory;
use crate::row::{Row, RowList};
use itoa::Buffer;

/// Takes back what was appended behind the first `before` bytes, where it wasn't appended whole, and answers
/// `appended`.
pub fn whole_or_nothing(
    before: usize,
    appended: Result<(), NoMemory>,
    out: &mut Vec<u8>,
) -> Result<(), NoMemory>
    ensures same { result ≡ appended }
    ensures ok { OnOk result (out.new.items ≡ out.old.items) }
    ensures err { OnErr result (out.new.items ≡ take before out.old.items) }
{
    if appended.is_err() {
        out.truncate(before);
    }
    appended
}

/// Appends bytes.
pub fn append(text: &[u8], out: &mut Vec<u8>) -> Result<(), NoMemory>
    ensures ok { OnOk result (out.new.items ≡ out.old.items ++ text.now) }
    ensures kept { Extends out.old.items out.new.items }
{
    out.extend_from_slice(text)?;
    Ok(())
}

/// Appends a number in decimal.
pub fn append_number(number: u64, out: &mut Vec<u8>) -> Result<(), NoMemory>
    ensures ok { OnOk result (out.new.items ≡ out.old.items ++ decimal number) }
    ensures kept { Extends out.old.items out.new.items }
{
    let mut buffer = Buffer::new();
    append(buffer.format(number).as_bytes(), out)
}

/// Appends the digits of a prefix.
pub fn append_digits(digits: &Digits, out: &mut Vec<u8>) -> Result<(), NoMemory>
    ensures ok { OnOk result (out.new.items ≡ out.old.items ++ digits_text digits.now) }
    ensures kept { Extends out.old.items out.new.items }
{
    for place in 0..digits.len() {
        out.push(b'0' + digits.digit(place))?;
    }
    Ok(())
}

/// Appends what leads in to a rate, as `was `, and the rate after it.
pub fn append_rate(lead: &[u8], rate: &Amount, out: &mut Vec<u8>) -> Result<(), NoMemory>
    ensures ok { OnOk result (out.new.items ≡ out.old.items ++ (lead.now ++ decimal rate.now)) }
    ensures kept { Extends out.old.items out.new.items }
{
    append(lead, out)?;
    append_number(rate.get(), out)
}

/// Appends a row: its prefix, a blank and its rate.
pub fn append_row(row: &Row, out: &mut Vec<u8>) -> Result<(), NoMemory>
    ensures ok { OnOk result (out.new.items ≡ out.old.items ++ row_text row.now) }
    ensures kept { Extends out.old.items out.new.items }
{
    append_digits(&row.prefix, out)?;
    append_rate(b" ", &row.rate, out)
}

/// Appends a row of a list, after a blank.
pub fn append_listed_row(row: &Row, out: &mut Vec<u8>) -> Result<(), NoMemory>
    ensures ok { OnOk result (out.new.items ≡ out.old.items ++ listed_row_text row.now) }
    ensures kept { Extends out.old.items out.new.items }
{
    append(b" ", out)?;
    append_row(row, out)
}

/// Appends the number of rows, and each row after a blank.
pub fn append_rows(rows: &RowList, out: &mut Vec<u8>) -> Result<(), NoMemory>
    ensures ok { OnOk result (out.new.items ≡ out.old.items ++ rows_text rows.now) }
    ensures kept { Extends out.old.items out.new.items }
{
    append_number(rows.len() as u64, out)?;
    for i in 0..rows.len() {
        append_listed_row(&rows.get(i), out)?;
    }
    Ok(())
}
