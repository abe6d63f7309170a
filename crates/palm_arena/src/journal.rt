// The journal of a batch: what stood at each place that the batch touched, once for each of them, so that rolling
// back puts it there again. Here a batch that began with the nodes a and b has lent 0 and taken a node c at 2:
//
//     places    Lent      | Holds b | Holds c
//     touched   true      | false   | true
//     saved     0: a      , 2: Empty
//
// A batch that touches k places keeps k nodes at most, however often it lends them.
ghost use Rattle.std.specs.Prelude.{◌≡◌, ◌<◌, ◌≤◌, [], length, OnOk, OnErr, IfSome};
ghost use Rattle.palm_arena.specs.ArenaState.{place_at, IsVacant};
ghost use Rattle.palm_arena.specs.Journal.{IsMarked, NoneMarked, Covers, IsSame, Saves, Appends, places_at_begin};

use crate::place::Place;
use palm_base::NoMemory;
use palm_node::NodeId;
use std::alloc::Global;

/// What stood at a place.
#[derive(Debug, Drop)]
pub(crate) struct Saved {
    id: NodeId,
    place: Place,
}

/// What stood at the places that a batch touched, and which places may be free.
#[derive(Debug, Drop)]
pub(crate) struct Journal {
    /// What is saved of each touched place.
    saved: Vec<Saved>,
    /// Whether each place was touched.
    touched: Vec<bool>,
    /// Places that were empty when a batch ended. It has room for as many more as there are saved.
    free: Vec<NodeId>,
}

// Offers a place that is empty as free, if it is below `end`. There is room: it was made when the place was saved.
fn offer(free: &mut Vec<NodeId>, id: NodeId, place: &Place, end: usize) {
    let Place::Empty = place else {
        return;
    };
    if id.place < end && free.len() < free.capacity() {
        free.push_reserved(id);
    }
}

impl Journal {
    /// A journal of no places. It takes no memory.
    pub(crate) fn new(alloc: Global) -> Journal
        ensures saved { result.saved.items ≡ [] }
        ensures touched { result.touched.items ≡ [] }
    {
        Journal {
            saved: Vec::new(alloc),
            touched: Vec::new(alloc),
            free: Vec::new(alloc),
        }
    }

    /// Saves what stands at a place, if it isn't saved yet. Nothing is saved where memory is refused.
    pub(crate) fn save(&mut self, id: NodeId, places: &[Place]) -> Result<(), NoMemory>
        requires inside { id.place < length places.now }
        requires marks { length self.old.touched.items ≡ length places.now }
        ensures ok { OnOk result (Saves id (place_at places.now id) self.old self.new) }
        ensures err { OnErr result (IsSame self.old self.new) }
    {
        if self.touched[id.place] {
            return Ok(());
        }
        self.free.reserve(self.saved.len() + 1)?;
        self.saved.reserve(1)?;
        let place = places[id.place].copy();
        self.saved.push_reserved(Saved { id, place });
        self.touched[id.place] = true;
        Ok(())
    }

    /// Saves that a new place, past the last one, was empty. Nothing is saved where memory is refused.
    pub(crate) fn append(&mut self, id: NodeId) -> Result<(), NoMemory>
        ensures ok { OnOk result (Appends id Place.Empty self.old self.new) }
        ensures err { OnErr result (IsSame self.old self.new) }
    {
        self.touched.reserve(1)?;
        self.free.reserve(self.saved.len() + 1)?;
        self.saved.push(Saved {
            id,
            place: Place::Empty,
        })?;
        self.touched.push_reserved(true);
        Ok(())
    }

    /// The id to use again next, which isn't offered any more: it is free, and was when the batch began. `None`
    /// where no id is offered, or where the one that was offered last is in use. Ids that a batch freed come before
    /// those of earlier ones, and among themselves in the order in which the batch touched them first.
    pub(crate) fn vacant(&mut self, places: &[Place]) -> Option<NodeId>
        requires { length self.old.touched.items ≡ length places.now }
        ensures inside { IfSome result (λ id. id.place < length places.now) }
        ensures vacant { IfSome result (λ id. IsVacant places.now id) }
        ensures untouched { IfSome result (λ id. ¬ IsMarked self.old.touched.items id.place) }
        ensures same { IsSame self.old self.new }
    {
        let id = self.free.pop()?;
        let Some(Place::Empty) = places.get(id.place) else {
            return None;
        };
        (!self.touched[id.place]).then_some(id)
    }

    /// Makes an id free again that `vacant` gave, and that was not put to use. There is room: it was just taken.
    pub(crate) fn give_up(&mut self, id: NodeId)
        ensures { IsSame self.old self.new }
    {
        if self.free.len() < self.free.capacity() {
            self.free.push_reserved(id);
        }
    }

    /// Ends a batch whose changes stay: nothing is saved any more, and places that it emptied are free. It takes no
    /// memory, and the time that the batch's saved places take.
    pub(crate) fn forget(&mut self, places: &[Place])
        requires { Covers (length places.now) self.old }
        ensures saved { self.new.saved.items ≡ [] }
        ensures marks { length self.new.touched.items ≡ length places.now }
        ensures clear { NoneMarked self.new.touched.items }
    {
        while let Some(Saved { id, place: _was }) = self.saved.pop() {
            self.touched[id.place] = false;
            offer(&mut self.free, id, &places[id.place], places.len());
        }
    }

    /// Ends a batch whose changes are taken back: the places are those that it began with, as they were then. It
    /// takes no memory, and the time that the batch's saved places take.
    pub(crate) fn put_back(&mut self, places: &mut Vec<Place>, count: usize)
        requires within { count ≤ length places.old.items }
        requires covers { Covers (length places.old.items) self.old }
        ensures places { places.new.items ≡ places_at_begin count self.old places.old.items }
        ensures saved { self.new.saved.items ≡ [] }
        ensures marks { length self.new.touched.items ≡ length places.new.items }
        ensures clear { NoneMarked self.new.touched.items }
    {
        while let Some(Saved { id, place }) = self.saved.pop() {
            self.touched[id.place] = false;
            offer(&mut self.free, id, &place, count);
            places[id.place] = place;
        }
        places.truncate(count);
        self.touched.truncate(count);
    }
}
