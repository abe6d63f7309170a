// What a line of a script says, and what may be wrong with one. The numbers of its faults are the codes that the
// program reports.
ghost use Rattle.std.specs.Prelude.{◌≡◌, ◌≢◌, ◌≤◌, ◌<◌, ◌∷◌, [], if◌then◌else◌};
ghost use Rattle.std.specs.Prelude.{Ok, Err, length, not, position, MatchOption, IfSome, IfOk, IfErr};
ghost use Rattle.std.specs.List.{position_or_len};
ghost use Rattle.palm_base.specs.Prefix.{digits_in, is_dialled};
ghost use Rattle.palm_base.specs.Numbers.{value_of, is_from_to, is_rate};
ghost use Rattle.palm_script.specs.Line.{is_blank, fields, is_caller, is_limit, set_of, del_of, get_of, rate_of};
ghost use Rattle.palm_script.specs.Line.{list_of, call_of, made_by, alone, asked_by, meaning_of, line_of, LineFits};

use palm_base::{Amount, Call, Digits, Limit, MOST_LIMIT, number_from_to};
use std::error::Error;
use std::fmt;

/// The greatest number of a caller.
pub const MOST_CALLER: u32 = 63;

/// How many callers there may be: those with the numbers from 0 to `MOST_CALLER`.
pub(crate) const MOST_CALLERS: usize = MOST_CALLER as usize + 1;

/// The most bytes of a line, without its ending.
pub const MOST_LINE: usize = 1_024;

/// What a line of a script says.
#[derive(Clone, Copy, Debug, PartialEq, Eq)]
pub enum Line {
    /// Nothing: it has no fields, or its first field begins with `#`.
    Skip,
    /// A call, and who makes it.
    Made {
        /// The caller, a number from 0 to `MOST_CALLER`.
        caller: u32,
        /// The call.
        call: Call,
    },
    /// The batch or section ends here.
    Cut,
    /// The batch or section ends here, and then the tree is dumped.
    Dump,
}

/// What is wrong with a line. The number of a variant is the code that the program reports.
///
/// A line is judged by `Long` first, then by the others in the order of their numbers up to `Count`, and then by its
/// arguments from the left.
#[derive(Clone, Copy, Debug, PartialEq, Eq)]
pub enum LineWhy {
    /// The line isn't skipped, and its first field is neither `cut`, `dump` nor a number from 0 to `MOST_CALLER`.
    Caller = 1,
    /// A caller is not followed by one of the words `set`, `del`, `get`, `rate` and `list`.
    Word = 2,
    /// The line has not as many fields as the form of its word. `cut` and `dump` stand alone.
    Count = 3,
    /// A prefix is not 1 to 15 digits.
    Prefix = 4,
    /// A dialled number is not 1 to 15 digits.
    Number = 5,
    /// A rate is no number from 0 to `MOST_RATE`.
    Rate = 6,
    /// A limit is no number from 1 to `MOST_LIMIT`.
    Limit = 7,
    /// The line without its ending has more than `MOST_LINE` bytes.
    Long = 8,
}

/// A faulty line.
#[derive(Clone, Copy, Debug, PartialEq, Eq)]
pub struct LineFault {
    /// Its number in the script, counted from 1.
    pub line: u64,
    /// What is wrong with it.
    pub why: LineWhy,
}

impl fmt::Display for LineFault {
    ghost use Rattle.std.specs.Prelude.{Some};
    ghost use Rattle.palm_script.specs.Line.{fault_text};

    ghost output = { λ fault. Some (fault_text fault) };

    fn fmt<W: fmt::Write>(&self, f: &mut fmt::Formatter<W>) -> fmt::Result {
        let line = self.line;
        let code = self.why as u8;
        write!(f, "line {line} fault {code}")
    }
}

impl Error for LineFault {}

fn first_blank(text: &[u8]) -> Option<usize>
    ensures { result ≡ position is_blank text.now }
{
    text.iter().position(|b| *b == b' ' || *b == b'\t')
}

fn first_other(text: &[u8]) -> Option<usize>
    ensures { result ≡ position (λ b. not (is_blank b)) text.now }
{
    text.iter().position(|b| *b != b' ' && *b != b'\t')
}

// Where the first field begins, or the length.
fn field_start(text: &[u8]) -> usize
    ensures place { result ≡ position_or_len (λ b. not (is_blank b)) text.now }
    ensures inside { result ≤ length text.now }
{
    first_other(text).unwrap_or(text.len())
}

// Where the field that stands at the front ends.
fn field_end(text: &[u8]) -> usize
    ensures place { result ≡ position_or_len is_blank text.now }
    ensures inside { result ≤ length text.now }
{
    first_blank(text).unwrap_or(text.len())
}

// The first field, and what stands behind it.
fn next_field(text: &[u8]) -> Option<(&[u8], &[u8])>
    ensures next { MatchOption result (fields text.now ≡ []) (λ x.
        fields text.now ≡ x.0.now ∷ fields x.1.now) }
    ensures some { IfSome result (λ x. 0 < length x.0.now) }
{
    let start = field_start(text);
    if start == text.len() {
        return None;
    }
    let rest = &text[start..];
    let end = field_end(rest);
    Some(rest.split_at(end))
}

// The value of a number field, where it is from `least` to `most`, and else the fault `why`.
fn read_number(field: &[u8], least: u64, most: u64, why: LineWhy) -> Result<u64, LineWhy>
    ensures value { result ≡ (if is_from_to least most field.now then Ok (value_of field.now) else Err why) }
    ensures least { IfOk result (λ n. least ≤ n) }
    ensures most { IfOk result (λ n. n ≤ most) }
{
    number_from_to(field, least, most).ok_or(why)
}

fn read_caller(field: &[u8]) -> Result<u32, LineWhy>
    ensures value { result ≡ (if is_caller field.now then Ok (value_of field.now) else Err LineWhy.Caller) }
    ensures most { IfOk result (λ n. n ≤ MOST_CALLER) }
{
    let caller = read_number(field, 0, u64::from(MOST_CALLER), LineWhy::Caller)?;
    Ok(caller as u32)
}

// The prefix or number that a field dials, and else the fault `why`.
fn read_digits(field: &[u8], why: LineWhy) -> Result<Digits, LineWhy>
    ensures { result ≡ (if is_dialled field.now then Ok (digits_in field.now) else Err why) }
{
    Digits::read(field).ok().ok_or(why)
}

fn read_rate(field: &[u8]) -> Result<Amount, LineWhy>
    ensures { result ≡ (if is_rate field.now then Ok (value_of field.now) else Err LineWhy.Rate) }
{
    Amount::read(field).ok_or(LineWhy::Rate)
}

fn read_limit(field: &[u8]) -> Result<Limit, LineWhy>
    ensures { result ≡ (if is_limit field.now then Ok (value_of field.now) else Err LineWhy.Limit) }
{
    let limit = read_number(field, 1, u64::from(MOST_LIMIT), LineWhy::Limit)?;
    Limit::new(limit as u32).ok_or(LineWhy::Limit)
}

// The field of a text that has one alone.
fn one_field(text: &[u8]) -> Result<&[u8], LineWhy>
    ensures ok { IfOk result (λ field. fields text.now ≡ field.now ∷ []) }
    ensures err { IfErr result (λ why. (why ≡ LineWhy.Count) × (length (fields text.now) ≢ 1)) }
{
    let (field, rest) = next_field(text).ok_or(LineWhy::Count)?;
    match next_field(rest) {
        None => Ok(field),
        Some(_) => Err(LineWhy::Count),
    }
}

// The fields of a text that has two.
fn two_fields(text: &[u8]) -> Result<(&[u8], &[u8]), LineWhy>
    ensures ok { IfOk result (λ x. fields text.now ≡ x.0.now ∷ x.1.now ∷ []) }
    ensures err { IfErr result (λ why. (why ≡ LineWhy.Count) × (length (fields text.now) ≢ 2)) }
{
    let (first, rest) = next_field(text).ok_or(LineWhy::Count)?;
    let second = one_field(rest)?;
    Ok((first, second))
}

// The fields of a text that has three.
fn three_fields(text: &[u8]) -> Result<(&[u8], &[u8], &[u8]), LineWhy>
    ensures ok { IfOk result (λ x. fields text.now ≡ x.0.now ∷ x.1.now ∷ x.2.now ∷ []) }
    ensures err { IfErr result (λ why. (why ≡ LineWhy.Count) × (length (fields text.now) ≢ 3)) }
{
    let (first, rest) = next_field(text).ok_or(LineWhy::Count)?;
    let (second, third) = two_fields(rest)?;
    Ok((first, second, third))
}

fn read_set(arguments: &[u8]) -> Result<Call, LineWhy>
    ensures { result ≡ set_of (fields arguments.now) }
{
    let (prefix, rate) = two_fields(arguments)?;
    let prefix = read_digits(prefix, LineWhy::Prefix)?;
    let rate = read_rate(rate)?;
    Ok(Call::Set { prefix, rate })
}

fn read_del(arguments: &[u8]) -> Result<Call, LineWhy>
    ensures { result ≡ del_of (fields arguments.now) }
{
    let prefix = read_digits(one_field(arguments)?, LineWhy::Prefix)?;
    Ok(Call::Del { prefix })
}

fn read_get(arguments: &[u8]) -> Result<Call, LineWhy>
    ensures { result ≡ get_of (fields arguments.now) }
{
    let prefix = read_digits(one_field(arguments)?, LineWhy::Prefix)?;
    Ok(Call::Get { prefix })
}

fn read_rate_call(arguments: &[u8]) -> Result<Call, LineWhy>
    ensures { result ≡ rate_of (fields arguments.now) }
{
    let number = read_digits(one_field(arguments)?, LineWhy::Number)?;
    Ok(Call::Rate { number })
}

fn read_list(arguments: &[u8]) -> Result<Call, LineWhy>
    ensures { result ≡ list_of (fields arguments.now) }
{
    let (from, to, limit) = three_fields(arguments)?;
    let from = read_digits(from, LineWhy::Prefix)?;
    let to = read_digits(to, LineWhy::Prefix)?;
    let limit = read_limit(limit)?;
    Ok(Call::List { from, to, limit })
}

// The call that the fields after the caller make.
fn read_call(text: &[u8]) -> Result<Call, LineWhy>
    ensures { result ≡ call_of (fields text.now) }
{
    let (word, arguments) = next_field(text).ok_or(LineWhy::Word)?;
    match word {
        b"set" => read_set(arguments),
        b"del" => read_del(arguments),
        b"get" => read_get(arguments),
        b"rate" => read_rate_call(arguments),
        b"list" => read_list(arguments),
        _ => Err(LineWhy::Word),
    }
}

// The call of the caller that the first field names, by the text after it.
fn read_made(first: &[u8], rest: &[u8]) -> Result<Line, LineWhy>
    ensures says { result ≡ made_by first.now (fields rest.now) }
    ensures fits { IfOk result LineFits }
{
    let caller = read_caller(first)?;
    let call = read_call(rest)?;
    Ok(Line::Made { caller, call })
}

// The line of a word that has to stand alone, by the text after it.
fn read_alone(line: Line, rest: &[u8]) -> Result<Line, LineWhy>
    requires fits { LineFits line }
    ensures says { result ≡ alone line (fields rest.now) }
    ensures fits { IfOk result LineFits }
{
    match next_field(rest) {
        None => Ok(line),
        Some(_) => Err(LineWhy::Count),
    }
}

// What a line asks for that isn't skipped, by its first field and the text after it.
fn read_asked(first: &[u8], rest: &[u8]) -> Result<Line, LineWhy>
    ensures says { result ≡ asked_by first.now (fields rest.now) }
    ensures fits { IfOk result LineFits }
{
    match first {
        b"cut" => read_alone(Line::Cut, rest),
        b"dump" => read_alone(Line::Dump, rest),
        _ => read_made(first, rest),
    }
}

fn meaning(text: &[u8]) -> Result<Line, LineWhy>
    ensures says { result ≡ meaning_of text.now }
    ensures fits { IfOk result LineFits }
{
    if text.len() > MOST_LINE {
        return Err(LineWhy::Long);
    }
    let Some((first, rest)) = next_field(text) else {
        return Ok(Line::Skip);
    };
    if first[0] == b'#' {
        return Ok(Line::Skip);
    }
    read_asked(first, rest)
}

/// What a line says, by its text without its ending and its number in the script, which a fault carries.
///
/// A line that breaks several rules has the first of these faults: `Long`, `Caller`, `Word`, `Count`, and then that of
/// its leftmost bad argument. It takes no memory.
pub fn read_line(text: &[u8], line: u64) -> Result<Line, LineFault>
    ensures says { result ≡ line_of text.now line }
    ensures fits { IfOk result LineFits }
{
    match meaning(text) {
        Ok(found) => Ok(found),
        Err(why) => Err(LineFault { line, why }),
    }
}

#[cfg(test)]
mod tests {
    use super::*;
    use std::process::Abort;

    // A call's word, and what follows it: the keys of prefixes and numbers, and the rate or the limit where there
    // is one.
    fn parts(call: &Call) -> (&str, u64, Option<u64>, Option<u64>) {
        match call {
            Call::Set { prefix, rate } => ("set", prefix.key(), None, Some(rate.get())),
            Call::Del { prefix } => ("del", prefix.key(), None, None),
            Call::Get { prefix } => ("get", prefix.key(), None, None),
            Call::Rate { number } => ("rate", number.key(), None, None),
            Call::List { from, to, limit } => (
                "list",
                from.key(),
                Some(to.key()),
                Some(u64::from(limit.get())),
            ),
        }
    }

    fn says(rt: &impl Abort, text: &str, who: u32, want: (&str, u64, Option<u64>, Option<u64>)) {
        match read_line(text.as_bytes(), 7) {
            Ok(Line::Made { caller, call }) => {
                assert_eq!(rt; caller, who, "{text}");
                assert_eq!(rt; parts(&call), want, "{text}");
            }
            _ => panic!(rt; "{text} makes no call"),
        }
    }

    #[test]
    fn edits_and_gets(rt: HostRuntime) {
        for (text, who, word, key, rate) in [
            ("0 set 44 5", 0, "set", 0x4400_0000_0000_0002, Some(5)),
            (
                " \t0\tset  44 \t 5\t ",
                0,
                "set",
                0x4400_0000_0000_0002,
                Some(5),
            ),
            ("63 get 0", 63, "get", 0x0000_0000_0000_0001, None),
            ("00 get 4", 0, "get", 0x4000_0000_0000_0001, None),
            (
                "00 del 123456789012345",
                0,
                "del",
                0x1234_5678_9012_345F,
                None,
            ),
            (
                "00000000000000000063 get 9",
                63,
                "get",
                0x9000_0000_0000_0001,
                None,
            ),
            (
                "1 set 1 999999999999",
                1,
                "set",
                0x1000_0000_0000_0001,
                Some(999_999_999_999),
            ),
            ("1 set 10 000", 1, "set", 0x1000_0000_0000_0002, Some(0)),
        ] {
            says(&rt, text, who, (word, key, None, rate));
        }
    }

    #[test]
    fn rates_and_lists(rt: HostRuntime) {
        for (text, who, word, key, to, limit) in [
            ("0 rate 4420", 0, "rate", 0x4420_0000_0000_0004, None, None),
            (
                "\t 9 \trate 123456789012345 ",
                9,
                "rate",
                0x1234_5678_9012_345F,
                None,
                None,
            ),
            (
                "0 list 1 2 1",
                0,
                "list",
                0x1000_0000_0000_0001,
                Some(0x2000_0000_0000_0001),
                Some(1),
            ),
            (
                "\t63 list\t99 0 0001000",
                63,
                "list",
                0x9900_0000_0000_0002,
                Some(0x0000_0000_0000_0001),
                Some(1_000),
            ),
        ] {
            says(&rt, text, who, (word, key, to, limit));
        }
    }

    #[test]
    fn words_that_stand_alone(rt: HostRuntime) {
        for (text, line) in [
            ("cut", Line::Cut),
            ("dump", Line::Dump),
            (" \tcut ", Line::Cut),
            ("dump\t", Line::Dump),
        ] {
            assert_eq!(rt; read_line(text.as_bytes(), 7), Ok(line), "{text}");
        }
    }

    #[test]
    fn skipped_lines(rt: HostRuntime) {
        for text in ["", " \t ", "# note", " #", "#0 get 4"] {
            assert_eq!(rt; read_line(text.as_bytes(), 7), Ok(Line::Skip), "{text}");
        }
        assert_eq!(rt; read_line(&[b'#'; 1_024], 7), Ok(Line::Skip));
    }

    fn fails(rt: &impl Abort, text: &[u8], why: LineWhy, code: u8) {
        let fault = LineFault { line: 7, why };
        assert_eq!(rt; read_line(text, 7), Err(fault));
        assert_eq!(rt; why as u8, code);
    }

    // The faults of a line as a whole.
    #[test]
    fn faulty_forms(rt: HostRuntime) {
        for (text, why, code) in [
            ("64 get 4", LineWhy::Caller, 1),
            ("000000000000000000000 get 4", LineWhy::Caller, 1),
            ("99999999999999999999 get 4", LineWhy::Caller, 1),
            ("-1 get 4", LineWhy::Caller, 1),
            ("Cut", LineWhy::Caller, 1),
            ("CUT", LineWhy::Caller, 1),
            ("cuts", LineWhy::Caller, 1),
            ("64", LineWhy::Caller, 1),
            ("0", LineWhy::Word, 2),
            ("0 SET 4 1", LineWhy::Word, 2),
            ("0 swap 4 1 2", LineWhy::Word, 2),
            ("0 get", LineWhy::Count, 3),
            ("0 get 4x 4", LineWhy::Count, 3),
            ("0 del", LineWhy::Count, 3),
            ("0 set 4 1 1", LineWhy::Count, 3),
            ("0 set x", LineWhy::Count, 3),
            ("0 rate 4 4", LineWhy::Count, 3),
            ("0 list 1 2", LineWhy::Count, 3),
            ("0 list 1 2 3 4", LineWhy::Count, 3),
            ("cut 1", LineWhy::Count, 3),
            ("dump # the tree", LineWhy::Count, 3),
            ("0 cut", LineWhy::Word, 2),
        ] {
            fails(&rt, text.as_bytes(), why, code);
        }
        fails(&rt, &[b'#'; 1_025], LineWhy::Long, 8);
        fails(&rt, &[b'x'; 1_025], LineWhy::Long, 8);
        fails(&rt, &[b'x'; 1_024], LineWhy::Caller, 1);
    }

    // The faults of arguments: the leftmost counts.
    #[test]
    fn faulty_arguments(rt: HostRuntime) {
        for (text, why, code) in [
            ("0 get 4x", LineWhy::Prefix, 4),
            ("0 del 1234567890123456", LineWhy::Prefix, 4),
            ("0 set 4x -1", LineWhy::Prefix, 4),
            ("0 list x 2 0", LineWhy::Prefix, 4),
            ("0 list 1 2x 0", LineWhy::Prefix, 4),
            ("0 rate 4a", LineWhy::Number, 5),
            ("0 rate 1234567890123456", LineWhy::Number, 5),
            ("0 set 4 1000000000000", LineWhy::Rate, 6),
            ("0 set 4 -1", LineWhy::Rate, 6),
            ("0 list 1 2 0", LineWhy::Limit, 7),
            ("0 list 1 2 1001", LineWhy::Limit, 7),
            ("0 list 1 2 x", LineWhy::Limit, 7),
        ] {
            fails(&rt, text.as_bytes(), why, code);
        }
    }
}
