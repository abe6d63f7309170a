// Writing a table's rows as a deck.
ghost use Rattle.std.specs.Prelude.{◌≡◌, ◌≤◌, OnOk, IfOk};
ghost use Rattle.std.specs.Fmt.{decimal};
ghost use Rattle.palm_base.specs.Prefix.{IsPrefix};
ghost use Rattle.palm_base.specs.Text.{digits_text};
ghost use Rattle.palm_deck.specs.Deck.{deck_text};

use csv::Writer;
use palm_base::text::{append_digits, append_number};
use palm_base::{Amount, Digits, MOST_RATE, NoMemory, RowList};
use std::alloc::Global;

// Writes a prefix in place of what the buffer held.
fn spell_prefix(prefix: &Digits, out: &mut Vec<u8>) -> Result<(), NoMemory>
    ensures ok { OnOk result (out.new.items ≡ digits_text prefix.now) }
    ensures prefix { IsPrefix prefix.now }
{
    out.clear();
    out.reserve(prefix.len() as usize)?;
    append_digits(prefix, out)
}

// Writes a rate in place of what the buffer held.
fn spell_rate(rate: &Amount, out: &mut Vec<u8>) -> Result<(), NoMemory>
    ensures ok { OnOk result (out.new.items ≡ decimal rate.now) }
    ensures most { rate.now ≤ MOST_RATE }
{
    out.clear();
    append_number(rate.get(), out)
}

/// The deck of a table's rows: `deck_text` of them, a Set for each in their order.
///
/// Beside `NoMemory`, which leaves nothing behind, there is no error.
pub fn write_deck(alloc: Global, rows: &RowList) -> Result<Vec<u8>, NoMemory>
    ensures { IfOk result (λ text. text.items ≡ deck_text rows.now) }
{
    let mut writer = Writer::from_writer(Vec::new(alloc));
    let header: [&[u8]; 3] = [b"op", b"prefix", b"rate"];
    let Ok(()) = writer.write_fields(&header) else {
        return Err(NoMemory);
    };
    let mut prefix = Vec::new(alloc);
    let mut rate = Vec::new(alloc);
    for i in 0..rows.len() {
        let row = rows.get(i);
        spell_prefix(&row.prefix, &mut prefix)?;
        spell_rate(&row.rate, &mut rate)?;
        let fields: [&[u8]; 3] = [b"set", prefix.as_slice(), rate.as_slice()];
        let Ok(()) = writer.write_fields(&fields) else {
            return Err(NoMemory);
        };
    }
    match writer.into_inner() {
        Ok(text) => Ok(text),
        Err(_) => Err(NoMemory),
    }
}
