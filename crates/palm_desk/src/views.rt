// What each seat of a desk knows, and the rule by which the desk's words, its slots and these views show one machine.
// No value of a view is ever made: they stand in contracts alone.
ghost use Rattle.std.specs.Prelude.{◌≡◌};

use atomic_table::{Table, TableRule};
use palm_base::desk::Terms;
use palm_base::{Call, Entry, ItemList, Reply};
use std::alloc::Global;
use std::marker::Model;

/// Whose view it is. That of a joined seat is spent.
pub enum Role {
    Calling,
    Driving,
    Spent,
}

/// What a caller's seat knows.
pub struct CallerView {
    pub caller: u64,
    /// Its calls, with their numbers.
    pub made: ItemList<(u64, Call)>,
    /// How many of these are posted.
    pub up: u64,
    /// The replies that it has collected, with their numbers.
    pub collected: ItemList<(u64, Reply)>,
    /// The words of its next call that are stored.
    pub draft: ItemList<u64>,
    /// The last count of finished calls that it has loaded.
    pub front: u64,
    /// How often it has loaded that count.
    pub looks: u64,
    /// How many of its turns have had their slots at home, or have given them back at the end.
    pub back: u64,
}

/// What the driver's seat knows.
pub struct DriverView {
    /// How many callers' seats are made.
    pub seats: u64,
    /// The calls that it has taken.
    pub taken: ItemList<Entry>,
    pub replies: ItemList<Reply>,
    /// How many of these the callers were told of.
    pub done: u64,
    /// One more than the caller whose call it has found, or 0.
    pub found: u64,
    /// The words of that call that are loaded.
    pub loaded: ItemList<u64>,
    /// The callers and the states that it has loaded since it took a call.
    pub scan: ItemList<(u64, u64)>,
    /// How many states it has loaded in all.
    pub loads: u64,
    /// The views of the callers' seats that were joined to it.
    pub ended: ItemList<CallerView>,
}

/// What a seat knows, by its role.
pub struct View {
    pub role: Role,
    pub terms: Terms,
    pub calls: CallerView,
    pub drives: DriverView,
}

/// What an answer feeds its caller beside the reply: nothing as yet. The place is kept, so that no step of the desk
/// changes when it comes.
pub type Feed = ();

/// A reply on its way to its caller.
#[derive(Drop)]
pub struct Answered {
    pub number: u64,
    pub reply: Reply,
    pub feed: Feed,
}

/// What a slot holds.
pub type Slot = Option<Answered>;

/// The rule of a desk's table.
pub struct DeskRule;

impl TableRule<Slot, View, Terms> for DeskRule {
    ghost use Rattle.palm_desk.specs.Rule.{IsRuled};
    ghost use Rattle.palm_desk.specs.Views.{maker};

    ghost holds = { IsRuled };

    ghost first = { maker };
}

/// A desk. Threads share it by reference, and call at it with the seats that were made with it. It has the words
/// and the slots that the drawing in docs/ARCHITECTURE.md shows. Contracts see which desk it is, and the terms that
/// it opened with.
#[derive(Drop)]
pub struct Desk {
    pub(crate) table: Table<Slot, View, Terms, DeskRule, Global>,
}

impl Model for Desk {
    ghost use Rattle.palm_desk.specs.Seats.{DeskState};

    ghost Value = { DeskState };

    ghost view = { λ a. record { table = a.table.shared.table_id; terms = a.table.shared.key } };
}
