//! How a run of the program ends: its status, and the line about it on the error stream.
ghost use Rattle.std.specs.Prelude.{◌≡◌, ◌⊎◌, true, IfOk, string_bytes};
ghost use Rattle.palm_cli.specs.Statuses.{code_of, is_done, names_fault, status_text, line_told, row_told};
ghost use Rattle.palm_cli.specs.Streams.{Told};

use palm_base::NoMemory;
use palm_deck::{DeckFault, DeckWhy};
use palm_script::{LineFault, Sink, write_all};
use std::alloc::Global;

/// How a run of the program ends.
#[derive(Clone, Copy, Debug, PartialEq, Eq)]
pub enum Status {
    /// All that the mode reads was read, all of it was good, and all was written.
    Done,
    /// The words aren't of the form.
    Usage,
    /// A line of the script has this fault.
    BadLine(LineFault),
    /// The source failed.
    ReadFault,
    /// The sink failed.
    WriteFault,
    /// Memory was refused.
    NoMemory,
    /// The source has more bytes than are taken.
    TooLong,
    /// The record of this number of the deck, counted from 1, has this fault.
    BadRow {
        /// The record's number.
        row: u64,
        /// Its fault.
        why: DeckWhy,
    },
}

impl Status {
    /// The program's exit status.
    pub fn code(&self) -> u8
        ensures { result ≡ code_of self.now }
    {
        match self {
            Status::Done => 0,
            Status::Usage => 2,
            Status::BadLine(_) => 3,
            Status::ReadFault => 4,
            Status::WriteFault => 5,
            Status::NoMemory => 6,
            Status::TooLong => 7,
            Status::BadRow { .. } => 8,
        }
    }

    /// Whether all went well.
    pub fn is_done(&self) -> bool
        ensures { result ≡ is_done self.now }
    {
        matches!(self, Status::Done)
    }
}

// Writes a line to the error stream. Its faults change nothing.
fn tell_line<E: Sink>(err: &mut E, line: &[u8])
    ensures { Told (E.taken err.old) (E.taken err.new) (E.faults err.old) (E.faults err.new) line.now }
{
    let _ = write_all(err, line);
}

fn make_bad_line(alloc: Global, fault: LineFault) -> Result<String, NoMemory>
    ensures { IfOk result (λ line. string_bytes line ≡ line_told fault) }
{
    Ok(format!(in alloc; "palm: {fault}\n")?)
}

fn make_bad_row(alloc: Global, row: u64, why: DeckWhy) -> Result<String, NoMemory>
    ensures { IfOk result (λ line. string_bytes line ≡ row_told row why) }
{
    let fault = DeckFault::Bad { row, why };
    Ok(format!(in alloc; "palm: {fault}\n")?)
}

// Tells the line that was made for a status, or that there was no memory for it.
fn tell_made<E: Sink>(err: &mut E, line: Result<String, NoMemory>, status: Status) -> Status
    requires names { names_fault status ≡ true }
    requires line { IfOk line (λ line. string_bytes line ≡ status_text status) }
    ensures same { (result ≡ status) ⊎ ((result ≡ Status.NoMemory) × (names_fault status ≡ true)) }
    ensures told { Told (E.taken err.old) (E.taken err.new) (E.faults err.old) (E.faults err.new)
        (status_text result) }
{
    let Ok(line) = line else {
        tell_line(err, b"palm: no memory\n");
        return Status::NoMemory;
    };
    tell_line(err, line.as_bytes());
    status
}

/// Tells the error stream how a run ended, and answers how it did. Of a run that went well it tells nothing. Where
/// memory is refused for the line of a fault, the run ends for want of memory.
pub fn tell<E: Sink>(alloc: Global, err: &mut E, status: Status) -> Status
    ensures same { (result ≡ status) ⊎ ((result ≡ Status.NoMemory) × (names_fault status ≡ true)) }
    ensures quiet { result ≡ Status.Done → err.new ≡ err.old }
    ensures told { Told (E.taken err.old) (E.taken err.new) (E.faults err.old) (E.faults err.new)
        (status_text result) }
{
    match status {
        Status::Done => {}
        Status::Usage => tell_line(err, b"palm: usage\n"),
        Status::ReadFault => tell_line(err, b"palm: read fault\n"),
        Status::WriteFault => tell_line(err, b"palm: write fault\n"),
        Status::NoMemory => tell_line(err, b"palm: no memory\n"),
        Status::TooLong => tell_line(err, b"palm: input too long\n"),
        Status::BadLine(fault) => return tell_made(err, make_bad_line(alloc, fault), status),
        Status::BadRow { row, why } => {
            return tell_made(err, make_bad_row(alloc, row, why), status);
        }
    }
    status
}
