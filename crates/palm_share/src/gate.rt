// The gate that is passed before each piece of work. No answer may depend on it.

/// Who passes the gate.
#[derive(Clone, Copy, Debug, PartialEq, Eq)]
pub enum Who {
    /// The worker with this number, counted from 0.
    Worker(u32),
    /// The caller with this number.
    Caller(u32),
    /// The one thread that runs the batches.
    Driver,
}

/// Is passed before each piece of work, so that a test can show who works and when. No answer depends on it: `pass`
/// gives nothing back, and a gate that never returns is no gate.
pub trait Gate {
    /// `who` is about to do its piece of work with this number, counted from 0.
    fn pass(&self, who: Who, turn: u64);
}

/// The gate that lets everyone through. Programs pass this one.
#[derive(Clone, Copy, Debug, Default)]
pub struct OpenGate;

impl Gate for OpenGate {
    fn pass(&self, _who: Who, _turn: u64) {}
}
