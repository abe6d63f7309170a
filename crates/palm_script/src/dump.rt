// When a transcript shows the tree.
ghost use Rattle.std.specs.Prelude.{◌≡◌};
ghost use Rattle.palm_script.specs.Transcript.{dumps_batches, dumps_end};

/// When a transcript shows the tree's shape, beside the lines of a script that ask for it.
#[derive(Clone, Copy, Debug, PartialEq, Eq)]
pub enum DumpWhen {
    /// Only where a line asks for it.
    Never,
    /// Before the last line too.
    AtEnd,
    /// After each batch too.
    Always,
}

impl DumpWhen {
    /// Whether the shape is shown after each batch.
    pub fn dumps_batches(self) -> bool
        ensures { result ≡ dumps_batches self }
    {
        matches!(self, DumpWhen::Always)
    }

    /// Whether the shape is shown before the last line.
    pub fn dumps_end(self) -> bool
        ensures { result ≡ dumps_end self }
    {
        matches!(self, DumpWhen::AtEnd)
    }
}
