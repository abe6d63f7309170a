// Reading a deck: record by record, so that one record stands in memory beside the entries.
ghost use Rattle.std.specs.Prelude.{◌≡◌, ◌≢◌, ◌+◌, ◌∷◌, [], if◌then◌else◌, true};
ghost use Rattle.std.specs.Prelude.{length, Some, Ok, Err, MatchOption, OnOk, IfOk, IfErr};
ghost use Rattle.csv.specs.Reading.{ReadRecord, Ready, reader_trim, took_first};
ghost use Rattle.csv.specs.Records.{fields_of};
ghost use Rattle.csv.specs.declared.reader.Trim.TheVariants as trims;
ghost use Rattle.palm_base.specs.Numbers.{value_of, is_rate};
ghost use Rattle.palm_base.specs.Prefix.{digits_in, is_dialled};
ghost use Rattle.palm_deck.specs.Deck.{without_mark as without, is_header as says_header, set_in, del_in, call_in};
ghost use Rattle.palm_deck.specs.Deck.{call_by, call_at, deck_of, IsNext};

use crate::deck::{Deck, DeckFault, DeckWhy};
use csv::{ByteRecord, Reader, ReaderBuilder};
use palm_base::{Amount, Call, Digits, Entry};
use std::alloc::Global;

// The fault of a deck whose first record isn't the header.
const NO_HEADER: DeckFault = DeckFault::Bad {
    row: 1,
    why: DeckWhy::Header,
};

// The bytes behind the byte order mark, where one stands at their front.
fn without_mark(bytes: &[u8]) -> &[u8]
    ensures { result.now ≡ without bytes.now }
{
    if bytes.len() >= 3 && bytes[..3] == [0xEF, 0xBB, 0xBF] {
        &bytes[3..]
    } else {
        bytes
    }
}

// The fields of a record that has three.
#[tactic(auto, using(crate::proofs::Fields::no_field, crate::proofs::Fields::three))]
fn three_fields(fields: &ByteRecord) -> Option<(&[u8], &[u8], &[u8])>
    ensures { MatchOption result (length (fields_of fields.now) ≢ 3) (λ x.
        fields_of fields.now ≡ x.0.now ∷ x.1.now ∷ x.2.now ∷ []) }
{
    if fields.len() != 3 {
        return None;
    }
    Some((fields.get(0)?, fields.get(1)?, fields.get(2)?))
}

#[tactic(auto, using(crate::proofs::Fields::no_header))]
fn is_header(fields: &ByteRecord) -> bool
    ensures { result ≡ says_header (fields_of fields.now) }
{
    match three_fields(fields) {
        Some((op, prefix, rate)) => {
            op == b"op".as_slice() && prefix == b"prefix".as_slice() && rate == b"rate".as_slice()
        }
        None => false,
    }
}

fn read_prefix(field: &[u8]) -> Result<Digits, DeckWhy>
    ensures { result ≡ (if is_dialled field.now then Ok (digits_in field.now) else Err DeckWhy.Prefix) }
{
    Digits::read(field).ok().ok_or(DeckWhy::Prefix)
}

fn read_rate(field: &[u8]) -> Result<Amount, DeckWhy>
    ensures { result ≡ (if is_rate field.now then Ok (value_of field.now) else Err DeckWhy.Rate) }
{
    Amount::read(field).ok_or(DeckWhy::Rate)
}

fn read_set(prefix: &[u8], rate: &[u8]) -> Result<Call, DeckWhy>
    ensures { result ≡ set_in prefix.now rate.now }
{
    let prefix = read_prefix(prefix)?;
    let rate = read_rate(rate)?;
    Ok(Call::Set { prefix, rate })
}

fn read_del(prefix: &[u8], rate: &[u8]) -> Result<Call, DeckWhy>
    ensures { result ≡ del_in prefix.now rate.now }
{
    let prefix = read_prefix(prefix)?;
    if !rate.is_empty() {
        return Err(DeckWhy::Rate);
    }
    Ok(Call::Del { prefix })
}

// The edit that three fields ask for.
fn read_three(op: &[u8], prefix: &[u8], rate: &[u8]) -> Result<Call, DeckWhy>
    ensures { result ≡ call_in op.now prefix.now rate.now }
{
    match op {
        b"set" => read_set(prefix, rate),
        b"del" => read_del(prefix, rate),
        _ => Err(DeckWhy::Op),
    }
}

// The edit of a record behind the header.
#[tactic(auto, using(crate::proofs::Fields::other_fields))]
fn read_fields(fields: &ByteRecord) -> Result<Call, DeckWhy>
    ensures { result ≡ call_by (fields_of fields.now) }
{
    match three_fields(fields) {
        Some((op, prefix, rate)) => read_three(op, prefix, rate),
        None => Err(DeckWhy::Fields),
    }
}

fn read_call(row: u64, fields: &ByteRecord) -> Result<Call, DeckFault>
    ensures { result ≡ call_at row (fields_of fields.now) }
{
    match read_fields(fields) {
        Ok(call) => Ok(call),
        Err(why) => Err(DeckFault::Bad { row, why }),
    }
}

// Adds the edit of a record to those of the records before it. The header is record 1, and the first edit's record 2.
fn add_edit(entries: &mut Vec<Entry>, fields: &ByteRecord) -> Result<(), DeckFault>
    ensures ok { OnOk result (IsNext (fields_of fields.now) entries.old.items entries.new.items) }
    ensures err { IfErr result (λ fault.
        fault ≢ DeckFault.NoMemory
        → call_at (length entries.old.items + 2) (fields_of fields.now) ≡ Err fault) }
{
    let place = entries.len() as u64;
    let call = read_call(place + 2, fields)?;
    entries.push(Entry {
        caller: 0,
        place,
        call,
    })?;
    Ok(())
}

// Reads the next record into `fields`, where there is one. The reader's bytes stand in memory, so that it has no
// error but refused memory.
fn read_record(reader: &mut Reader<&[u8]>, fields: &mut ByteRecord) -> Result<bool, DeckFault>
    ensures read { IfOk result (λ found.
        (reader_trim reader.old ≡ trims.None) → Ready reader.old
        → ReadRecord (λ s. Some s.now) reader.old reader.new found (fields_of fields.new)) }
    ensures first { (reader_trim reader.old ≡ trims.None) → OnOk result (took_first reader.new ≡ true) }
    ensures err { IfErr result (λ fault. fault ≡ DeckFault.NoMemory) }
{
    match reader.read_byte_record(fields) {
        Ok(found) => Ok(found),
        Err(_) => Err(DeckFault::NoMemory),
    }
}

/// The deck that bytes hold, or its first fault, exactly as `deck_of` says.
///
/// Beside these there is only `NoMemory`, which leaves nothing behind.
pub fn read_deck(alloc: Global, bytes: &[u8]) -> Result<Deck, DeckFault>
    ensures ok { IfOk result (λ deck. deck_of bytes.now ≡ Ok deck) }
    ensures err { IfErr result (λ fault. fault ≢ DeckFault.NoMemory → deck_of bytes.now ≡ Err fault) }
{
    let mut reader = ReaderBuilder::new()
        .has_headers(false)
        .flexible(true)
        .from_reader(alloc, without_mark(bytes));
    let mut fields = ByteRecord::new(alloc);
    if !read_record(&mut reader, &mut fields)? || !is_header(&fields) {
        return Err(NO_HEADER);
    }
    let mut entries = Vec::new(alloc);
    while read_record(&mut reader, &mut fields)? {
        add_edit(&mut entries, &fields)?;
    }
    Ok(Deck::from_vec(entries))
}
