// What the replies to generated calls were, and how that is told.
ghost use Rattle.std.specs.Prelude.{◌≡◌, ◌≤◌, ◌+◌, ◌++◌, length, OnOk, OnErr};
ghost use Rattle.palm_base.specs.Extends.{Extends};
ghost use Rattle.palm_gen.specs.Summary.{hits_in, sum_in, summary_line, summary_text};

use palm_base::text::{append, append_number, whole_or_nothing};
use palm_base::{NoMemory, Reply};
use std::marker::Model;

/// The most calls that are generated in one run. With it the sum of a run's rates stays below 2^64.
pub const MOST_GENERATED_CALLS: u64 = 10_000_000;

/// What the replies of a run were so far: how many there were, how many were a Hit, and the sum of the rates of all
/// Value and Hit replies, in the user's unit. Contracts see the three numbers.
#[derive(Debug, Drop)]
pub struct Tally {
    calls: u64,
    hits: u64,
    sum: u64,
}

impl Model for Tally {
    ghost use Rattle.std.specs.Prelude.{◌≤◌, ◌*◌};
    ghost use Rattle.palm_base.specs.declared.amount.TheConstants.{MOST_RATE};
    ghost use Rattle.palm_gen.specs.Summary.{Counts};

    ghost Value = { Counts };

    ghost view = { λ a. record {
      calls = a.calls;
      hits = a.hits;
      sum = a.sum;
    } };

    ghost invariant = { λ a. (a.hits ≤ a.calls) × (a.sum ≤ a.calls * MOST_RATE) };
}

impl Tally {
    /// The tally of no replies.
    pub fn new() -> Tally
        ensures { result ≡ record { calls = 0; hits = 0; sum = 0 } }
    {
        Tally {
            calls: 0,
            hits: 0,
            sum: 0,
        }
    }

    /// Counts more replies, as those of one more batch.
    pub fn add(&mut self, replies: &[Reply])
        requires fits { self.old.calls + length replies.now ≤ MOST_GENERATED_CALLS }
        ensures calls { self.new.calls ≡ self.old.calls + length replies.now }
        ensures hits { self.new.hits ≡ self.old.hits + hits_in replies.now }
        ensures sum { self.new.sum ≡ self.old.sum + sum_in replies.now }
    {
        for reply in replies {
            self.calls += 1;
            match reply {
                Reply::Value(rate) => self.sum += rate.get(),
                Reply::Hit(row) => {
                    self.hits += 1;
                    self.sum += row.rate.get();
                }
                _ => {}
            }
        }
    }
}

fn append_line(name: &[u8], number: u64, text: &mut Vec<u8>) -> Result<(), NoMemory>
    ensures ok { OnOk result (text.new.items ≡ text.old.items ++ summary_line name.now number) }
    ensures kept { Extends text.old.items text.new.items }
{
    append(name, text)?;
    append(b" ", text)?;
    append_number(number, text)?;
    append(b"\n", text)
}

fn append_summary(tally: &Tally, rows: u64, levels: u32, text: &mut Vec<u8>) -> Result<(), NoMemory>
    ensures ok { OnOk result
        (text.new.items ≡ text.old.items ++ summary_text tally.now.calls rows levels
        tally.now.hits tally.now.sum) }
    ensures kept { Extends text.old.items text.new.items }
{
    append_line(b"calls", tally.calls, text)?;
    append_line(b"rows", rows, text)?;
    append_line(b"levels", u64::from(levels), text)?;
    append_line(b"hits", tally.hits, text)?;
    append_line(b"sum", tally.sum, text)
}

/// Appends the summary of a run, five lines: the number of its calls, of the rows of the table and of the levels of
/// the tree at its end, and of the Hit replies, and the sum of the rates in its replies. `text` is unchanged where
/// memory is refused.
pub fn print_summary(
    tally: &Tally,
    rows: u64,
    levels: u32,
    text: &mut Vec<u8>,
) -> Result<(), NoMemory>
    ensures ok { OnOk result
        (text.new.items ≡ text.old.items ++ summary_text tally.now.calls rows levels
        tally.now.hits tally.now.sum) }
    ensures err { OnErr result (text.new.items ≡ text.old.items) }
{
    let before = text.len();
    let printed = append_summary(tally, rows, levels, text);
    whole_or_nothing(before, printed, text)
}
