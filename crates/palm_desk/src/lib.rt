//! A desk where callers leave calls and a driver answers them, with no lock: callers and driver go on beside each
//! other, and no call of a desk waits. All calls arrive in one order, in which the driver takes and answers them.
//!
//! A call goes so. Its caller stores its words in a cell of its own, draws a number by one addition to the desk's
//! tail, which is its arrival, and shows the cell. The driver finds the cell with the next number, reads the call,
//! takes it with the cell's slot, and gives the slot back with the reply. Once the driver has finished a batch, the
//! caller collects the reply with the slot.
#![tactic(auto)]

mod caller;
mod driver;
mod next;
mod open;
mod rest;
#[cfg(test)]
mod tests;
mod views;
mod words;

pub use caller::{CallerSeat, Poll, SubmitFault};
pub use driver::DriverSeat;
pub use open::open_desk;
pub use rest::{Rest, close};
pub use views::Desk;
