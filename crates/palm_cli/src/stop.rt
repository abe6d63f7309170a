// Why a run stops before its end, and the status that it then ends with.
ghost use Rattle.std.specs.Prelude.{◌≡◌};
ghost use Rattle.palm_cli.specs.declared.stop.Stop.TheVariants as stops;

use crate::status::Status;
use palm_base::NoMemory;
use palm_script::Failed;

/// Why a run stopped.
#[derive(Clone, Copy, Debug, PartialEq, Eq)]
pub enum Stop {
    /// Memory was refused.
    Memory,
    /// The sink failed.
    Write,
}

impl From<NoMemory> for Stop {
    ghost from_gives = { λ _ stop. stop ≡ stops.Memory };

    fn from(_refused: NoMemory) -> Stop {
        Stop::Memory
    }
}

impl From<Failed> for Stop {
    ghost from_gives = { λ _ stop. stop ≡ stops.Write };

    fn from(_failed: Failed) -> Stop {
        Stop::Write
    }
}

impl From<Stop> for Status {
    ghost use Rattle.std.specs.Prelude.{◌≡◌};
    ghost use Rattle.palm_cli.specs.Stops.{status_of};

    ghost from_gives = { λ stop status. status ≡ status_of stop };

    fn from(stop: Stop) -> Status {
        match stop {
            Stop::Memory => Status::NoMemory,
            Stop::Write => Status::WriteFault,
        }
    }
}
