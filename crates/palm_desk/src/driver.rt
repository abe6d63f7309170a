// The driver's seat.
ghost use Rattle.std.specs.Prelude.{◌≡◌, ℕ, ◌+◌, ◌<◌, ◌≤◌, ◌++◌, ◌∷◌, [], length};
ghost use Rattle.std.specs.Prelude.{IfSome, IfNone};
ghost use Rattle.palm_base.specs.Arrivals.{count_of};
ghost use Rattle.palm_desk.specs.DriverCalls.{TakesNext, FindsNone};

use crate::next::{find_next, take_found};
use crate::views::{Answered, Desk, Slot, View};
use atomic_table::{Play, Seat};
use palm_base::{Entry, Reply};
use std::marker::Model;

struct Answer;

impl Play<Slot, View> for Answer {
    ghost use Rattle.palm_desk.specs.Plays.{Answers};

    ghost then = { Answers };
}

struct Finish;

impl Play<Slot, View> for Finish {
    ghost use Rattle.palm_desk.specs.Plays.{Finishes};

    ghost then = { Finishes };
}

/// The driver's seat: a token that holds no desk. Contracts see the calls that it has taken, its replies, and what
/// it has loaded.
#[derive(Drop)]
pub struct DriverSeat {
    pub(crate) seat: Seat<Slot, View>,
    pub(crate) base: u64,
    pub(crate) window: usize,
    pub(crate) callers: usize,
    pub(crate) taken: usize,
    pub(crate) answered: usize,
    // the place of each caller's first call, and how many calls of it are taken
    pub(crate) firsts: Vec<u64>,
    pub(crate) counts: Vec<usize>,
    // the cells of the calls that are taken and not answered, that of the call `i` at the place `i` modulo the cells
    pub(crate) order: Vec<usize>,
    pub(crate) left: Left,
}

/// Room for what is left when the desk is closed: how many calls each caller has collected and made, the slots, and
/// the two lists.
#[derive(Drop)]
pub(crate) struct Left {
    pub got: Vec<usize>,
    pub made: Vec<usize>,
    pub slots: Vec<Slot>,
    pub waiting: Vec<Entry>,
    pub unread: Vec<(u64, Reply)>,
}

impl Model for DriverSeat {
    ghost use Rattle.palm_desk.specs.Seats.{DriverState, driver_state};
    ghost use Rattle.std.specs.Prelude.{◌*◌};
    ghost use Rattle.palm_desk.specs.Holding.{DriverIsReady};
    ghost use Rattle.palm_desk.specs.Leftovers.{HasRoomLeft};

    ghost Value = { DriverState };

    ghost view = { λ a. driver_state a.seat.table_id a.seat.me.0 };

    ghost invariant = { λ a.
        DriverIsReady a.seat.table_id.words a.seat.me a.base a.window a.callers a.taken a.answered
        a.firsts.items a.counts.items a.order.items
        × HasRoomLeft a.callers (a.callers * a.window) a.left };
}

impl DriverSeat {
    /// Takes the next call, where its caller has posted it.
    ///
    /// It loads the state of each caller's next cell, from the caller 0 on, until one is Called with the next
    /// arrival number, and takes that call. `None` exactly where no caller's cell was: then the states stay known
    /// as the seat's scan.
    pub fn next(&mut self, desk: &Desk) -> Option<Entry>
        requires { self.old.desk ≡ desk.now }
        ensures some { IfSome result (λ entry. TakesNext self.old self.new entry) }
        ensures none { IfNone result (FindsNone self.old self.new) }
        ensures quota { (c : ℕ) → c < length self.new.desk.terms.firsts
            → count_of c self.new.taken ≤ self.new.desk.terms.quota }
    {
        let number = self.base + self.taken as u64;
        let caller = find_next(desk, &mut self.seat, &self.counts, self.window, number)?;
        let count = self.counts[caller];
        let cell = caller * self.window + count % self.window;
        let call = take_found(desk, &mut self.seat, caller, cell, number);
        let place = self.firsts[caller] + count as u64;
        let end = self.taken % (self.callers * self.window);
        self.order[end] = cell;
        self.counts[caller] = count + 1;
        self.taken += 1;
        Some(Entry {
            caller: caller as u32,
            place,
            call,
        })
    }

    /// Answers the first call that is taken and not answered. Its caller can collect the reply once it is finished.
    pub fn answer(&mut self, desk: &Desk, reply: Reply)
        requires desk { self.old.desk ≡ desk.now }
        requires some { length self.old.replies < length self.old.taken }
        ensures { self.new ≡ record self.old { replies = self.old.replies ++ reply ∷ [] } }
    {
        let cell = self.order[self.answered % (self.callers * self.window)];
        let number = self.base + self.answered as u64;
        let shared = &desk.table.shared;
        let answered = Answered {
            number,
            reply,
            feed: (),
        };
        shared.exchange(&mut self.seat, cell, Some(answered));
        shared.store::<Answer>(&mut self.seat, 4 * cell + 2, 4 * number + 3);
        self.answered += 1;
    }

    /// Finishes a batch: from here on the callers find all replies.
    pub fn finish(&mut self, desk: &Desk)
        requires { self.old.desk ≡ desk.now }
        ensures { self.new ≡ record self.old { done = length self.old.replies } }
    {
        let number = self.base + self.answered as u64;
        desk.table.shared.store::<Finish>(&mut self.seat, 1, number);
    }
}
