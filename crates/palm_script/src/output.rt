// Writing a text whole to a sink that may take it in pieces.
ghost use Rattle.std.specs.Prelude.{ℕ, ◌≤◌, length, take, OnOk, OnErr};
ghost use Rattle.std.specs.Io.KnownBytes.{Appends};
ghost use Rattle.palm_script.specs.Causes.{HasCause};

use crate::traits::{Failed, Sink};

/// Offers a sink the whole part, and again what it did not take.
///
/// `Failed` comes only where the sink's count of faults rose. Then it has taken a front of the part.
pub fn write_all<O: Sink>(out: &mut O, part: &[u8]) -> Result<(), Failed>
    ensures ok { OnOk result (Appends (O.taken out.old) (O.taken out.new) part.now) }
    ensures err { OnErr result
        ((n : ℕ) × (n ≤ length part.now)
        × Appends (O.taken out.old) (O.taken out.new) (take n part.now)) }
    ensures cause { HasCause (O.faults out.old) (O.faults out.new) result }
{
    let mut done = 0;
    while done < part.len() {
        done += out.write(&part[done..])?;
    }
    Ok(())
}
