// A desk is opened.
ghost use Rattle.std.specs.Prelude.{◌≡◌, ℕ, ◌+◌, ◌*◌, ◌^◌, ◌<◌, ◌≤◌, ◌∷◌};
ghost use Rattle.std.specs.Prelude.{length, IfOk, replicate, slice_index};
ghost use Rattle.palm_desk.specs.Views.{newcomer, seated};
ghost use Rattle.palm_desk.specs.Leftovers.{HasRoomLeft};
ghost use Rattle.palm_desk.specs.Opened.{terms_with, new_driver, AreNewCallers};
ghost use Rattle.palm_desk.specs.Seats.{caller_state};
ghost use Rattle.palm_desk.specs.declared.views.Role.TheVariants.{Driving};

use crate::caller::CallerSeat;
use crate::driver::{DriverSeat, Left};
use crate::views::{Desk, Slot, View};
use atomic_table::{Seat, Split, Table};
use palm_base::desk::Terms;
use palm_base::{ItemList, NoMemory};
use std::alloc::Global;

struct NewSeat;

impl Split<View> for NewSeat {
    ghost use Rattle.palm_desk.specs.Views.{seated, newcomer};

    ghost left = { seated };

    ghost right = { newcomer };
}

fn copied(alloc: Global, numbers: &[u64]) -> Result<Vec<u64>, NoMemory>
    ensures { IfOk result (λ copy. copy.items ≡ numbers.now) }
{
    Ok(Vec::from_slice(alloc, numbers)?)
}

fn zeros<T: Copy>(alloc: Global, n: usize, zero: T) -> Result<Vec<T>, NoMemory>
    ensures { IfOk result (λ zeros. zeros.items ≡ replicate n zero) }
{
    let mut zeros = Vec::with_capacity(alloc, n)?;
    for _ in 0..n {
        zeros.push(zero)?;
    }
    Ok(zeros)
}

// Room for what is left when the desk is closed.
fn room_left(alloc: Global, callers: usize, cells: usize) -> Result<Left, NoMemory>
    ensures { IfOk result (λ left. HasRoomLeft callers cells left) }
{
    Ok(Left {
        got: zeros(alloc, callers, 0)?,
        made: zeros(alloc, callers, 0)?,
        slots: Vec::with_capacity(alloc, cells)?,
        waiting: Vec::with_capacity(alloc, cells)?,
        unread: Vec::with_capacity(alloc, cells)?,
    })
}

// The words of a desk that was just opened: the two counts, and all cells idle.
fn words_of(alloc: Global, base: u64, cells: usize) -> Result<Vec<u64>, NoMemory>
    requires { cells ≤ 4096 }
    ensures { IfOk result (λ words. words.items ≡ base ∷ base ∷ replicate (4 * cells) 0) }
{
    let mut words = Vec::new(alloc);
    words.push(base)?;
    words.push(base)?;
    for _ in 0..4 * cells {
        words.push(0)?;
    }
    Ok(words)
}

// The seat of the next caller.
fn caller_seat(
    alloc: Global,
    desk: &Desk,
    seat: &mut Seat<Slot, View>,
    caller: usize,
    window: usize,
    quota: usize,
) -> Result<CallerSeat, NoMemory>
    requires table { seat.old.table_id ≡ desk.now.table }
    requires words { seat.old.table_id.words ≡ 4 * (length seat.old.me.0.terms.firsts * window) + 2 }
    requires view { (seat.old.me.0.role ≡ Driving) × (seat.old.me.0.drives.seats ≡ caller)
        × (seat.old.me.0.terms.window ≡ window) × (seat.old.me.0.terms.quota ≡ quota) }
    requires small { (caller < length seat.old.me.0.terms.firsts)
        × (length seat.old.me.0.terms.firsts ≤ 64)
        × (0 < window) × (window ≤ 64) × (quota ≤ 2 ^ 40) }
    ensures table { seat.new.table_id ≡ seat.old.table_id }
    ensures ok { IfOk result (λ s.
        (s ≡ caller_state seat.old.table_id (newcomer seat.old.me.0))
        × (seat.new.me ≡ (seated seat.old.me.0, seat.old.me.1))) }
{
    let numbers = zeros(alloc, window, 0)?;
    let seat = desk.table.shared.split_seat::<NewSeat>(seat);
    Ok(CallerSeat {
        seat,
        caller,
        window,
        quota,
        made: 0,
        got: 0,
        numbers,
    })
}

/// Opens a desk for as many callers as there are first places, with the driver's seat and a seat for each caller,
/// in their order.
///
/// The caller `c` begins at the place `firsts[c]`, and arrival numbers begin at `base`. Each caller has `window`
/// cells, and may make `quota` calls. No other call of a desk takes memory. `NoMemory` where memory was refused:
/// then nothing is left of the desk.
pub fn open_desk(
    alloc: Global,
    base: u64,
    firsts: &[u64],
    window: u32,
    quota: u64,
) -> Result<(Desk, DriverSeat, Vec<CallerSeat>), NoMemory>
    requires callers { (1 ≤ length firsts.now) × (length firsts.now ≤ 64) }
    requires places { (base ≤ 2 ^ 61) × ((c : ℕ) → slice_index firsts.now c ≤ 2 ^ 61) }
    requires window { (1 ≤ window) × (window ≤ 64) }
    requires quota { (1 ≤ quota) × (quota ≤ 2 ^ 40) }
    ensures terms { IfOk result (λ opened. opened.0.terms ≡ terms_with base firsts.now window quota) }
    ensures driver { IfOk result (λ opened. opened.1 ≡ new_driver opened.0) }
    ensures callers { IfOk result (λ opened. AreNewCallers opened.0 (length firsts.now) opened.2.items) }
{
    let callers = firsts.len();
    let window = window as usize;
    let quota = quota as usize;
    let cells = callers * window;
    let terms = Terms {
        base,
        firsts: ItemList::from_vec(copied(alloc, firsts)?),
        window: window as u64,
        quota: quota as u64,
    };
    let words = words_of(alloc, base, cells)?;
    let counts = zeros(alloc, callers, 0)?;
    let order = zeros(alloc, cells, 0)?;
    let firsts = copied(alloc, firsts)?;
    let left = room_left(alloc, callers, cells)?;
    let (table, mut seat) = Table::vacant(alloc, words.as_slice(), cells, &terms)?;
    let desk = Desk { table };
    let mut seats = Vec::new(alloc);
    for caller in 0..callers {
        let new = caller_seat(alloc, &desk, &mut seat, caller, window, quota)?;
        seats.push(new)?;
    }
    let driver = DriverSeat {
        seat,
        base,
        window,
        callers,
        taken: 0,
        answered: 0,
        firsts,
        counts,
        order,
        left,
    };
    Ok((desk, driver, seats))
}
