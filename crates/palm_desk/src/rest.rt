// A desk is closed. The driver's seat takes in the callers' seats one after the other, and then the table gives
// back its words and its slots. What is left there is put in the order of arrival by a merge: of the callers'
// oldest calls that are left, the one with the least number is always the next.
ghost use Rattle.std.specs.Prelude.{◌≡◌, ◌≢◌, ℕ, ◌+◌, ◌*◌, ◌^◌, ◌<◌, ◌≤◌, []};
ghost use Rattle.std.specs.Prelude.{◌∷◌, length, slice_get, slice_index, slice_index_or, slice_set, vec_len};
ghost use Rattle.std.specs.Prelude.{vec_capacity, All, Some, None, true, false};
ghost use Rattle.std.specs.Slots.{slots_items, slots_len, slots_filled, IsFull};
ghost use Rattle.palm_base.specs.declared.call.Call.{Call as AnyCall};
ghost use Rattle.palm_base.specs.declared.call.Reply.{Reply as AnyReply};
ghost use Rattle.palm_desk.specs.Closing.{EachIsThere, IsClosed};
ghost use Rattle.palm_desk.specs.Joining.{IsSettled, AllJoined, CountsOf};
ghost use Rattle.palm_desk.specs.Leftovers.{End, IsStart, FindsFirst, KeepsCounts, PutsUnread, PutsWaiting};
ghost use Rattle.palm_desk.specs.Leftovers.{earlier_of, unread_to, waiting_to};
ghost use Rattle.palm_base.specs.Arrivals.{entry};
ghost use Rattle.palm_desk.specs.Rule.{Begins, words_at};
ghost use Rattle.palm_desk.specs.Views.{filled};
ghost use Rattle.palm_desk.specs.Words.{IsCall, spell};
ghost use Rattle.palm_desk.specs.declared.views.Role.TheVariants.{Driving};

use crate::caller::CallerSeat;
use crate::driver::{DriverSeat, Left};
use crate::views::{Desk, Slot, View};
use crate::words::{CallWords, call_of};
use atomic_table::{Closed, Join, Play, Seat};
use palm_base::{Call, Entry, ItemList, Reply};
use std::alloc::Global;

struct Settle;

impl Play<Slot, View> for Settle {
    ghost use Rattle.palm_desk.specs.Plays.{Settles};

    ghost then = { Settles };
}

struct Ended;

impl Join<View> for Ended {
    ghost use Rattle.palm_desk.specs.Views.{closed_by, spent};

    ghost both = { closed_by };

    ghost spent = { spent };
}

/// What is left of a desk that is closed.
#[derive(Debug, Drop)]
pub struct Rest {
    /// The calls that have no reply, in the order of their arrival.
    pub waiting: ItemList<Entry>,
    /// The replies that no caller has collected, with their numbers, in the order of arrival.
    pub unread: ItemList<(u64, Reply)>,
}

// A caller's seat gives its slots back, so that it can be joined.
fn end_caller(desk: &Desk, caller: CallerSeat) -> Seat<Slot, View>
    requires { caller.desk ≡ desk.now }
    ensures table { result.table_id ≡ desk.now.table }
    ensures settled { IsSettled caller result.me.0 }
    ensures empty { result.me.1 ≡ [] }
{
    let CallerSeat {
        mut seat,
        caller: _,
        window,
        quota: _,
        made,
        got,
        numbers: _,
    } = caller;
    for _ in made.max(window)..got + window {
        desk.table.shared.load::<Settle>(&mut seat, 0);
    }
    seat
}

// All callers' seats are joined to the driver's, and what each has made and collected is kept.
fn join_all(
    desk: &Desk,
    seat: &mut Seat<Slot, View>,
    mut callers: Vec<CallerSeat>,
    got: &mut [usize],
    made: &mut [usize],
)
    requires table { seat.old.table_id ≡ desk.now.table }
    requires desks { All (λ s. s.desk ≡ desk.now) callers.items }
    requires view { (seat.old.me.0.role ≡ Driving) × (0 < seat.old.table_id.words) }
    requires got { length got.old ≡ length desk.now.terms.firsts }
    requires made { length made.old ≡ length desk.now.terms.firsts }
    ensures table { seat.new.table_id ≡ seat.old.table_id }
    ensures joined { AllJoined seat.old.me.0 seat.new.me.0 callers.items }
    ensures counts { CountsOf callers.items got.new made.new }
    ensures long { (length got.new ≡ length got.old) × (length made.new ≡ length made.old) }
{
    while let Some(caller) = callers.pop() {
        got[caller.caller] = caller.got;
        made[caller.caller] = caller.made;
        let other = end_caller(desk, caller);
        desk.table.shared.join_seat::<Ended>(seat, other);
    }
}

// All slots of a table come out of it.
fn take_slots(closed: &mut Closed<Slot, Global>, slots: &mut Vec<Slot>)
    requires full { IsFull closed.old.slots }
    requires none { slots.old.items ≡ [] }
    requires room { slots_len closed.old.slots ≤ vec_capacity slots.old }
    ensures slots { slots.new.items ≡ slots_items closed.old.slots }
    ensures words { closed.new.words ≡ closed.old.words }
    ensures empty { (slots_len closed.new.slots ≡ slots_len closed.old.slots)
        × ((k : ℕ) → k < slots_len closed.old.slots
        → slice_index_or (slots_filled closed.new.slots) k false ≡ false) }
{
    for k in 0..closed.slot_count() {
        slots.push_reserved(closed.take(k));
    }
}

// The earlier of a call that was found and another caller's.
fn earlier(found: Option<(usize, u64)>, caller: usize, number: u64) -> Option<(usize, u64)>
    ensures { result ≡ earlier_of found caller number }
{
    match found {
        Some((_, least)) if least <= number => found,
        _ => Some((caller, number)),
    }
}

// The caller whose first call that is left has the least number, with that number.
fn first_left(
    closed: &Closed<Slot, Global>,
    got: &[usize],
    made: &[usize],
    window: usize,
) -> Option<(usize, u64)>
    requires words { IsFull closed.now.words
        × (slots_len closed.now.words ≡ 4 * (length got.now * window) + 2) }
    requires counts { length made.now ≡ length got.now }
    requires small { (0 < window) × (window ≤ 64) × (length got.now ≤ 64) }
    ensures { FindsFirst (slots_items closed.now.words) window got.now made.now (length got.now) result }
{
    let mut found = None;
    for caller in 0..got.len() {
        if got[caller] < made[caller] {
            let cell = caller * window + got[caller] % window;
            found = earlier(found, caller, closed.word(4 * cell + 2) / 4);
        }
    }
    found
}

// The call that the words of a cell spell.
fn read_call(closed: &Closed<Slot, Global>, cell: usize) -> Call
    requires words { IsFull closed.now.words × (4 * cell + 5 < slots_len closed.now.words) × (cell < 4096) }
    requires spelled { (call : AnyCall) × IsCall call
        × Begins (slots_items closed.now.words) (words_at cell) (spell call) }
    ensures { (call : AnyCall) → IsCall call
        → Begins (slots_items closed.now.words) (words_at cell) (spell call) → result ≡ call }
{
    call_of(&CallWords {
        first: closed.word(4 * cell + 3),
        second: closed.word(4 * cell + 4),
        third: closed.word(4 * cell + 5),
    })
}

// The reply that a slot holds, with its number.
fn take_reply(slots: &mut [Slot], cell: usize) -> (u64, Reply)
    requires { (n : ℕ) × ((r : AnyReply) × (slice_get slots.old cell ≡ Some (filled n r))) }
    ensures reply { (n : ℕ) (r : AnyReply) → slice_get slots.old cell ≡ Some (filled n r) → result ≡ (n, r) }
    ensures slots { slots.new ≡ slice_set slots.old cell None }
{
    let Some(answered) = slots[cell].take() else {
        unreachable!()
    };
    (answered.number, answered.reply)
}

// Puts down the reply in a cell's slot, or where its call has none, the call itself.
fn put_down(
    closed: &Closed<Slot, Global>,
    cell: usize,
    is_answered: bool,
    caller: u32,
    place: u64,
    left: &mut Left,
)
    requires room { (vec_len left.old.waiting < vec_capacity left.old.waiting)
        × (vec_len left.old.unread < vec_capacity left.old.unread) }
    requires words { IsFull closed.now.words × (4 * cell + 5 < slots_len closed.now.words) × (cell < 4096) }
    requires reply { is_answered ≡ true
        → (n : ℕ) × ((r : AnyReply) × (slice_get left.old.slots.items cell ≡ Some (filled n r))) }
    requires call { is_answered ≡ false
        → (call : AnyCall) × IsCall call
        × Begins (slots_items closed.now.words) (words_at cell) (spell call) }
    ensures counts { KeepsCounts left.old left.new }
    ensures unread { is_answered ≡ true → (n : ℕ) (r : AnyReply)
        → slice_get left.old.slots.items cell ≡ Some (filled n r) → PutsUnread left.old left.new cell n r }
    ensures waiting { is_answered ≡ false → (call : AnyCall) → IsCall call
        → Begins (slots_items closed.now.words) (words_at cell) (spell call)
        → PutsWaiting left.old left.new (entry caller place call) }
{
    if is_answered {
        let answered = take_reply(&mut left.slots, cell);
        left.unread.push_reserved(answered);
    } else {
        let call = read_call(closed, cell);
        left.waiting.push_reserved(Entry {
            caller,
            place,
            call,
        });
    }
}

// Puts what is left at a table into the two lists, in the order of arrival.
fn gather(
    closed: &Closed<Slot, Global>,
    firsts: &[u64],
    window: usize,
    first_waiting: u64,
    left: &mut Left,
)
    requires full { IsFull closed.now.words }
    requires start { (x : End)
        × IsStart x (slots_items closed.now.words) firsts.now window first_waiting left.old }
    ensures waiting { (x : End) → IsStart x (slots_items closed.now.words) firsts.now window first_waiting left.old
        → left.new.waiting.items ≡ waiting_to x (length x.log) }
    ensures unread { (x : End) → IsStart x (slots_items closed.now.words) firsts.now window first_waiting left.old
        → left.new.unread.items ≡ unread_to x (length x.log) }
{
    while let Some((caller, number)) = first_left(closed, &left.got, &left.made, window) {
        let turn = left.got[caller];
        let cell = caller * window + turn % window;
        let place = firsts[caller] + turn as u64;
        put_down(
            closed,
            cell,
            number < first_waiting,
            caller as u32,
            place,
            left,
        );
        left.got[caller] = turn + 1;
    }
}

/// Closes a desk, and gives back what is left of it: the calls that have no reply, and the replies that no caller
/// has collected, both in the order of arrival. It takes no memory.
pub fn close(desk: Desk, driver: DriverSeat, callers: Vec<CallerSeat>) -> Rest
    requires driver { driver.desk ≡ desk }
    requires callers { All (λ s. s.desk ≡ desk) callers.items }
    requires each { EachIsThere driver callers.items }
    ensures { IsClosed driver callers.items result }
{
    let DriverSeat {
        mut seat,
        base,
        window,
        callers: _,
        taken: _,
        answered,
        firsts,
        counts: _,
        order: _,
        mut left,
    } = driver;
    join_all(&desk, &mut seat, callers, &mut left.got, &mut left.made);
    let Desk { table } = desk;
    let mut closed = table.close_with(seat);
    take_slots(&mut closed, &mut left.slots);
    gather(&closed, &firsts, window, base + answered as u64, &mut left);
    closed.free();
    let Left {
        got: _,
        made: _,
        slots: _,
        waiting,
        unread,
    } = left;
    Rest {
        waiting: ItemList::from_vec(waiting),
        unread: ItemList::from_vec(unread),
    }
}
