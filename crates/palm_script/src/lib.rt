//! Scripts and transcripts, and the outside: what they are read from and written to.
#![tactic(auto)]

mod dump;
mod input;
pub mod laws;
mod line;
mod memory;
mod output;
mod print;
mod script;
mod spelling;
mod standard;
#[cfg(test)]
mod tests;
mod traits;

pub use dump::DumpWhen;
pub use input::{Input, InputEnd, MOST_BYTES, read_input};
pub use line::{Line, LineFault, LineWhy, MOST_CALLER, MOST_LINE, read_line};
pub use memory::{MemSink, MemSource, NullSink, SureSource};
pub use output::write_all;
pub use print::{print_batch, print_end, print_reply};
pub use script::{Script, SectionEnd, read_script};
pub use spelling::print_line;
pub use standard::{StdSink, StdSource};
pub use traits::{Failed, Sink, Source};
