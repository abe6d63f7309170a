//! The desk at which callers leave calls and a driver answers them: its fixed terms, its events, and its law. The machine that
//! these make is in `specs/Desk`. The crate that runs it stands above.
ghost use Rattle.palm_base.specs.Desk.{DeskKeepsItsLaw, DeskKeepsOrder};

use crate::call::{Call, Reply};
use crate::list::ItemList;

/// What is fixed when a desk opens.
#[derive(Debug, Drop)]
pub struct Terms {
    /// The number of the first call that arrives.
    pub base: u64,
    /// The place of each caller's first call.
    pub firsts: ItemList<u64>,
    /// How many calls a caller may have made and not collected.
    pub window: u64,
    /// How many calls a caller may make in all.
    pub quota: u64,
}

/// One step of a desk's history.
#[derive(Debug, Drop)]
pub enum Event {
    /// A call of this caller arrives: it gets the next number.
    Arrive(u32, Call),
    /// The caller shows its call to the driver.
    Post(u32),
    /// The driver takes the next call.
    Take,
    /// The driver answers the first call that has no reply.
    Answer(Reply),
    /// The driver tells the callers how many calls have a reply.
    Finish,
    /// The caller collects the reply to its oldest call that it has not collected.
    Collect(u32),
}

/// After any events that may come, each in its turn, the desk is lawful, and its history keeps the calls of each caller in
/// the order in which they were made.
pub fn desks_keep_their_law()
    ensures law { DeskKeepsItsLaw }
    ensures order { DeskKeepsOrder }
{}
