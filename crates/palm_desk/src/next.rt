// The driver looks for the next call, and takes it.
ghost use Rattle.std.specs.Prelude.{◌≡◌, ℕ, ◌^◌, ◌+◌, ◌*◌, ◌<◌, ◌≤◌, ◌++◌};
ghost use Rattle.std.specs.Prelude.{◌∷◌, [], length, None, IfSome, IfNone, slice_index};
ghost use Rattle.palm_base.specs.Arrivals.{count_of};
ghost use Rattle.palm_base.specs.Desk.{callers};
ghost use Rattle.palm_desk.specs.Views.{driving, scanned};
ghost use Rattle.palm_desk.specs.Rule.{cell};
ghost use Rattle.palm_desk.specs.Scans.{next_number, scan_for, FoundAt, FoundNowhere, TakesOne};
ghost use Rattle.palm_desk.specs.declared.views.Role.TheVariants.{Driving};

use crate::views::{Desk, Slot, View};
use crate::words::{CallWords, call_of};
use atomic_table::{Play, Seat};
use palm_base::Call;

struct StartScan;

impl Play<Slot, View> for StartScan {
    ghost use Rattle.palm_desk.specs.Plays.{Starts};

    ghost then = { Starts };
}

struct Scan;

impl Play<Slot, View> for Scan {
    ghost use Rattle.palm_desk.specs.Plays.{Scans};

    ghost then = { Scans };
}

struct ReadWord;

impl Play<Slot, View> for ReadWord {
    ghost use Rattle.palm_desk.specs.Plays.{Reads};

    ghost then = { Reads };
}

struct Take;

impl Play<Slot, View> for Take {
    ghost use Rattle.palm_desk.specs.Plays.{Takes};

    ghost then = { Takes };
}

// Loads the state of a caller's next cell. That of the caller 0 begins a scan.
fn look(desk: &Desk, seat: &mut Seat<Slot, View>, caller: usize, at: usize) -> u64
    requires table { seat.old.table_id ≡ desk.now.table }
    requires view { (seat.old.me.0.role ≡ Driving) × (caller < callers seat.old.me.0.terms)
        × (at ≡ cell seat.old.me.0.terms caller (count_of caller seat.old.me.0.drives.taken)) }
    requires turn { 0 < caller → length seat.old.me.0.drives.scan ≡ caller }
    requires words { 4 * at + 2 < seat.old.table_id.words }
    requires few { at < 4096 }
    ensures table { seat.new.table_id ≡ seat.old.table_id }
    ensures view { seat.new.me.0
        ≡ driving
        (scanned (scan_for caller seat.old.me.0.drives.scan) (next_number seat.old.me.0)
        caller result seat.old.me.0.drives)
        seat.old.me.0 }
    ensures slots { seat.new.me.1 ≡ seat.old.me.1 }
{
    if caller == 0 {
        desk.table.shared.load::<StartScan>(seat, 4 * at + 2)
    } else {
        desk.table.shared.load::<Scan>(seat, 4 * at + 2)
    }
}

/// The first caller whose next cell is Called with the next arrival number.
pub(crate) fn find_next(
    desk: &Desk,
    seat: &mut Seat<Slot, View>,
    counts: &[usize],
    window: usize,
    number: u64,
) -> Option<usize>
    requires table { seat.old.table_id ≡ desk.now.table }
    requires view { (seat.old.me.0.role ≡ Driving) × (number ≡ next_number seat.old.me.0)
        × (number < 2 ^ 62) }
    requires fresh { (seat.old.me.0.drives.found ≡ 0) × (seat.old.me.0.drives.loaded ≡ []) }
    requires counts { (length counts.now ≡ callers seat.old.me.0.terms)
        × ((c : ℕ) → c < length counts.now
        → slice_index counts.now c ≡ count_of c seat.old.me.0.drives.taken) }
    requires words { (seat.old.table_id.words ≡ 4 * (length counts.now * window) + 2)
        × (window ≡ seat.old.me.0.terms.window) }
    requires small { (0 < length counts.now) × (length counts.now ≤ 64) × (0 < window) × (window ≤ 64) }
    ensures table { seat.new.table_id ≡ seat.old.table_id }
    ensures slots { seat.new.me.1 ≡ seat.old.me.1 }
    ensures found { IfSome result (λ c. FoundAt seat.old.me.0 seat.new.me.0 c) }
    ensures nowhere { IfNone result (FoundNowhere seat.old.me.0 seat.new.me.0) }
{
    for caller in 0..counts.len() {
        let at = caller * window + counts[caller] % window;
        if look(desk, seat, caller, at) == 4 * number + 1 {
            return Some(caller);
        }
    }
    None
}

/// Reads the call that was found, and takes it. Its slot goes behind the others.
pub(crate) fn take_found(
    desk: &Desk,
    seat: &mut Seat<Slot, View>,
    caller: usize,
    at: usize,
    number: u64,
) -> Call
    requires table { seat.old.table_id ≡ desk.now.table }
    requires view { (seat.old.me.0.role ≡ Driving)
        × (at ≡ cell seat.old.me.0.terms caller (count_of caller seat.old.me.0.drives.taken))
        × (number ≡ next_number seat.old.me.0) }
    requires found { (seat.old.me.0.drives.found ≡ caller + 1) × (seat.old.me.0.drives.loaded ≡ []) }
    requires words { 4 * at + 5 < seat.old.table_id.words }
    requires fits { (at < 4096) × (number < 2 ^ 62) }
    ensures table { seat.new.table_id ≡ seat.old.table_id }
    ensures took { TakesOne seat.old.me.0 seat.new.me.0 caller result }
    ensures slots { seat.new.me.1 ≡ seat.old.me.1 ++ (at, None) ∷ [] }
{
    let shared = &desk.table.shared;
    let first = shared.load::<ReadWord>(seat, 4 * at + 3);
    let second = shared.load::<ReadWord>(seat, 4 * at + 4);
    let third = shared.load::<ReadWord>(seat, 4 * at + 5);
    shared.swap::<Take>(seat, 4 * at + 2, 4 * number + 2);
    seat.turn();
    call_of(&CallWords {
        first,
        second,
        third,
    })
}
