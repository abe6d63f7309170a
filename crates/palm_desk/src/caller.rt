// A caller's seat.
ghost use Rattle.std.specs.Prelude.{◌≡◌, ◌+◌, ◌≤◌, IfOk, IfErr, Some};
ghost use Rattle.palm_desk.specs.CallerCalls.{uncollected, after_call, MayCall, Refuses, Polled, fault_text};

use crate::views::{Desk, Slot, View};
use crate::words::words_of;
use atomic_table::{Play, Seat};
use palm_base::{Call, Reply};
use std::error::Error;
use std::fmt;
use std::marker::Model;

struct Draft;

impl Play<Slot, View> for Draft {
    ghost use Rattle.palm_desk.specs.Plays.{Drafts};

    ghost then = { Drafts };
}

struct Arrive;

impl Play<Slot, View> for Arrive {
    ghost use Rattle.palm_desk.specs.Plays.{Arrives};

    ghost then = { Arrives };
}

struct Post;

impl Play<Slot, View> for Post {
    ghost use Rattle.palm_desk.specs.Plays.{Posts};

    ghost then = { Posts };
}

struct Look;

impl Play<Slot, View> for Look {
    ghost use Rattle.palm_desk.specs.Plays.{Looks};

    ghost then = { Looks };
}

struct Collect;

impl Play<Slot, View> for Collect {
    ghost use Rattle.palm_desk.specs.Plays.{Collects};

    ghost then = { Collects };
}

/// Why a call isn't made.
#[derive(Clone, Copy, Debug, PartialEq, Eq)]
pub enum SubmitFault {
    /// The seat has as many calls that it has not collected as the window allows.
    Full,
    /// There is room, but the seat has made as many calls as the quota allows.
    Spent,
}

impl fmt::Display for SubmitFault {
    ghost output = { λ fault. Some (fault_text fault) };

    fn fmt<W: fmt::Write>(&self, f: &mut fmt::Formatter<W>) -> fmt::Result {
        match self {
            SubmitFault::Full => write!(f, "the caller's window is full"),
            SubmitFault::Spent => write!(f, "the caller's quota is spent"),
        }
    }
}

impl Error for SubmitFault {}

/// What a look for a reply finds.
#[derive(Debug, Drop)]
pub enum Poll {
    /// The seat has no call that it has not collected.
    Nothing,
    /// The batch of the seat's oldest call was not finished when the seat looked.
    Pending,
    /// The number of the seat's oldest call, and its reply.
    Ready(u64, Reply),
}

/// A caller's seat: a token that holds no desk. Contracts see what it has made and collected.
#[derive(Drop)]
pub struct CallerSeat {
    pub(crate) seat: Seat<Slot, View>,
    pub(crate) caller: usize,
    pub(crate) window: usize,
    pub(crate) quota: usize,
    pub(crate) made: usize,
    pub(crate) got: usize,
    // the numbers of the calls that are not collected, that of the turn `k` at the place `k` modulo the window
    pub(crate) numbers: Vec<u64>,
}

impl Model for CallerSeat {
    ghost use Rattle.palm_desk.specs.Seats.{CallerState, caller_state};
    ghost use Rattle.palm_desk.specs.Holding.{CallerIsReady};

    ghost Value = { CallerState };

    ghost view = { λ a. caller_state a.seat.table_id a.seat.me.0 };

    ghost invariant = { λ a.
        CallerIsReady a.seat.table_id.words a.seat.me a.caller a.window a.quota a.made a.got
        a.numbers.items };
}

impl CallerSeat {
    /// How many calls may be made before one is collected.
    pub fn room(&self) -> usize
        ensures { result + uncollected self.now ≡ self.now.desk.terms.window }
    {
        self.window - (self.made - self.got)
    }

    /// Makes a call, and answers its arrival number: the count of all calls that had arrived at the desk, from its
    /// base on.
    ///
    /// `Full` exactly where the seat has as many calls that it has not collected as the window allows, and `Spent`
    /// exactly where it isn't full and has made its quota of calls. A refusal changes nothing.
    pub fn submit(&mut self, desk: &Desk, call: Call) -> Result<u64, SubmitFault>
        requires { self.old.desk ≡ desk.now }
        ensures made { IfOk result (λ number. self.new ≡ after_call number call self.old) }
        ensures front { IfOk result (λ number. self.old.front ≤ number) }
        ensures allowed { IfOk result (λ number. MayCall self.old) }
        ensures refused { IfErr result (λ fault. Refuses self.old fault) }
        ensures unchanged { IfErr result (λ fault. self.new ≡ self.old) }
    {
        if self.made - self.got == self.window {
            return Err(SubmitFault::Full);
        }
        if self.made == self.quota {
            return Err(SubmitFault::Spent);
        }
        let place = self.made % self.window;
        let cell = self.caller * self.window + place;
        let words = words_of(&call);
        let shared = &desk.table.shared;
        shared.store::<Draft>(&mut self.seat, 4 * cell + 3, words.first);
        shared.store::<Draft>(&mut self.seat, 4 * cell + 4, words.second);
        shared.store::<Draft>(&mut self.seat, 4 * cell + 5, words.third);
        let number = shared.fetch_add::<Arrive>(&mut self.seat, 0, 1);
        shared.store::<Post>(&mut self.seat, 4 * cell + 2, 4 * number + 1);
        self.numbers[place] = number;
        self.made += 1;
        Ok(number)
    }

    /// Looks for the reply to the seat's oldest call that it has not collected, and collects it where it is there.
    ///
    /// `Nothing` exactly where the seat has no such call. Else the count of finished calls is loaded once and kept
    /// as the seat's front. `Pending` exactly where the front is at most the call's number, and the seat is as
    /// before but for the look. Else the answer is the number and its reply, which the seat has then collected, and
    /// its cell is free.
    pub fn poll(&mut self, desk: &Desk) -> Poll
        requires { self.old.desk ≡ desk.now }
        ensures { Polled self.old self.new result }
    {
        if self.made == self.got {
            return Poll::Nothing;
        }
        let shared = &desk.table.shared;
        let front = shared.load::<Look>(&mut self.seat, 1);
        let place = self.got % self.window;
        let number = self.numbers[place];
        if front <= number {
            return Poll::Pending;
        }
        let cell = self.caller * self.window + place;
        shared.swap::<Collect>(&mut self.seat, 4 * cell + 2, 0);
        let found = shared.exchange(&mut self.seat, cell, None);
        self.seat.turn();
        self.got += 1;
        let Some(answered) = found else {
            unreachable!()
        };
        Poll::Ready(answered.number, answered.reply)
    }
}
