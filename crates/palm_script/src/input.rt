// Reading a source whole, up to a bound, before anything is made of its bytes.
ghost use Rattle.std.specs.Prelude.{◌≡◌, ◌≤◌, ◌<◌, ℕ, List, [], length, IfOk, OnOk};
ghost use Rattle.std.specs.Io.KnownBytes.{Consumes};
ghost use Rattle.palm_script.specs.Input.{IsRead, is_whole};

use crate::traits::Source;
use palm_base::NoMemory;
use std::alloc::Global;

/// The most bytes of a source that are taken: 64 MiB.
pub const MOST_BYTES: usize = 67_108_864;

// The most bytes that one read asks for.
const BUFFER: usize = 65_536;

/// How the reading of a source ended.
#[derive(Clone, Copy, Debug, PartialEq, Eq)]
pub enum InputEnd {
    /// The source was read to its end.
    Whole,
    /// The source failed.
    Failed,
    /// There was a byte more than `MOST_BYTES`.
    Long,
}

impl InputEnd {
    /// Whether the source was read to its end.
    pub fn is_whole(self) -> bool
        ensures { result ≡ is_whole self }
    {
        matches!(self, InputEnd::Whole)
    }
}

/// What was read of a source: at most `MOST_BYTES` bytes, and how the reading ended.
#[derive(Debug, Drop)]
pub struct Input {
    /// The bytes.
    pub bytes: Vec<u8>,
    /// How the reading ended.
    pub end: InputEnd,
}

fn make_buffer(alloc: Global) -> Result<Vec<u8>, NoMemory>
    ensures { IfOk result (λ buf. 0 < length buf.items) }
{
    Ok(vec![in alloc; 0u8; BUFFER]?)
}

// Reads on into `bytes`, a buffer at a time.
fn read_through<S: Source>(
    src: &mut S,
    buf: &mut [u8],
    bytes: &mut Vec<u8>,
) -> Result<InputEnd, NoMemory>
    requires empty { bytes.old.items ≡ [] }
    requires buffer { 0 < length buf.old }
    ensures read { IfOk result (λ end.
        IsRead (S.left src.old) (S.left src.new) (S.faults src.old) (S.faults src.new)
        bytes.new.items end) }
    ensures few { OnOk result (length bytes.new.items ≤ MOST_BYTES) }
    ensures front { (read : List ℕ) × Consumes (S.left src.old) (S.left src.new) read }
    ensures faults { S.faults src.old ≤ S.faults src.new }
{
    while bytes.len() <= MOST_BYTES {
        let room = buf.len().min(MOST_BYTES + 1 - bytes.len());
        match src.read(&mut buf[..room]) {
            Err(_) => return Ok(InputEnd::Failed),
            Ok(0) => return Ok(InputEnd::Whole),
            Ok(n) => bytes.extend_from_slice(&buf[..n])?,
        }
    }
    bytes.truncate(MOST_BYTES);
    Ok(InputEnd::Long)
}

/// Reads a source to its end, to its first fault, or to the byte too many, which is dropped.
///
/// No further read is made then. No clause says so of a fault, which may raise a source's count by more than one. A
/// fault of the source is no error here, but part of the answer. `NoMemory` leaves the source where it was read to.
pub fn read_input<S: Source>(alloc: Global, src: &mut S) -> Result<Input, NoMemory>
    ensures read { IfOk result (λ input.
        IsRead (S.left src.old) (S.left src.new) (S.faults src.old) (S.faults src.new)
        input.bytes.items input.end) }
    ensures few { IfOk result (λ input. length input.bytes.items ≤ MOST_BYTES) }
    ensures front { (read : List ℕ) × Consumes (S.left src.old) (S.left src.new) read }
    ensures faults { S.faults src.old ≤ S.faults src.new }
{
    let mut bytes = Vec::new(alloc);
    let mut buf = make_buffer(alloc)?;
    let end = read_through(src, &mut buf, &mut bytes)?;
    Ok(Input { bytes, end })
}
