// The arena: the tree's nodes at places, which are their ids.
//
// A batch begins, lends nodes to change them, takes new ones and drops others, and then commits or rolls back. A
// lent node moves out into its lease, and a copy of it stays in the journal until the batch ends. Ids that a batch
// dropped are used again from the next batch on, and never within it, so that what stood there can be put back.
ghost use Rattle.std.specs.Prelude.{◌≡◌, ◌+◌, ◌++◌, ◌∷◌, [], length, ◌<◌, Some, None};
ghost use Rattle.std.specs.Prelude.{IsSome, is_some, IfOk, OnOk, OnErr};
ghost use Rattle.palm_arena.specs.ArenaState.{ArenaState, node_at, with_place, undone, IsHeld, IsLent, IsVacant};
ghost use Rattle.palm_arena.specs.ArenaState.{IsVacantAtBegin, NoneLent, IsStill};
ghost use Rattle.palm_arena.specs.Journal.{IsMarked, IsSame, Puts};

use crate::journal::Journal;
use crate::lease::Lease;
use crate::place::Place;
use palm_base::{NoMemory, Steps};
use palm_node::{Node, NodeId};
use std::alloc::Global;
use std::marker::Model;
use std::mem;
use std::sync::ledger::Ledger;

/// The nodes of a tree, by their ids. Contracts see its places, those at the begin of the batch that is under way,
/// and the ids that moved.
#[derive(Debug, Drop)]
pub struct Arena {
    places: Vec<Place>,
    journal: Journal,
    /// How many places the batch under way began with.
    begun: Option<usize>,
    moved: Vec<NodeId>,
}

impl Model for Arena {
    ghost use Rattle.palm_arena.specs.ArenaState.{ArenaState};

    ghost Value = { ArenaState };

    ghost use Rattle.palm_arena.specs.Journal.{begun_with, IsKept};

    ghost view = { λ a. record {
      places = a.places.items;
      begun = begun_with a.begun a.journal a.places.items;
      moved = a.moved.items;
    } };

    ghost invariant = { λ a. IsKept a.begun a.journal a.places.items a.moved.items };
}

// Puts a node at a free place, which stays free where memory is refused.
fn reuse(
    places: &mut Vec<Place>,
    journal: &mut Journal,
    id: NodeId,
    node: Node,
) -> Result<NodeId, NoMemory>
    requires inside { id.place < length places.old.items }
    requires marks { length journal.old.touched.items ≡ length places.old.items }
    requires vacant { IsVacant places.old.items id }
    requires untouched { ¬ IsMarked journal.old.touched.items id.place }
    ensures ok { IfOk result (λ id. Puts id node journal.old places.old.items journal.new places.new.items) }
    ensures err_places { OnErr result (places.new.items ≡ places.old.items) }
    ensures err_journal { OnErr result (IsSame journal.old journal.new) }
{
    if let Err(refused) = journal.save(id, places) {
        journal.give_up(id);
        return Err(refused);
    }
    places[id.place] = Place::Holds(node);
    Ok(id)
}

// Puts a node at a new place, past the last one.
fn append(places: &mut Vec<Place>, journal: &mut Journal, node: Node) -> Result<NodeId, NoMemory>
    requires marks { length journal.old.touched.items ≡ length places.old.items }
    ensures ok { IfOk result (λ id. Puts id node journal.old places.old.items journal.new places.new.items) }
    ensures err_places { OnErr result (places.new.items ≡ places.old.items) }
    ensures err_journal { OnErr result (IsSame journal.old journal.new) }
{
    places.reserve(1)?;
    let id = NodeId {
        place: places.len(),
    };
    journal.append(id)?;
    places.push_reserved(Place::Holds(node));
    Ok(id)
}

// Puts a node at a free place, or past the last one.
fn put(places: &mut Vec<Place>, journal: &mut Journal, node: Node) -> Result<NodeId, NoMemory>
    requires marks { length journal.old.touched.items ≡ length places.old.items }
    ensures ok { IfOk result (λ id. Puts id node journal.old places.old.items journal.new places.new.items) }
    ensures err_places { OnErr result (places.new.items ≡ places.old.items) }
    ensures err_journal { OnErr result (IsSame journal.old journal.new) }
{
    match journal.vacant(places) {
        Some(id) => reuse(places, journal, id, node),
        None => append(places, journal, node),
    }
}

impl Arena {
    /// An arena of no nodes, with room for a first one. `NoMemory` where that room was refused.
    pub fn new(alloc: Global) -> Result<Arena, NoMemory>
        ensures { IfOk result (λ arena. arena ≡ record { places = []; begun = None; moved = [] }) }
    {
        Ok(Arena {
            places: Vec::with_capacity(alloc, 1)?,
            journal: Journal::new(alloc),
            begun: None,
            moved: Vec::new(alloc),
        })
    }

    /// The allocator that the arena takes its memory from.
    pub fn allocator(&self) -> Global {
        *self.places.allocator()
    }

    /// Whether a node stands at an id, so that it can be read, lent and dropped.
    pub fn is_held(&self, id: NodeId) -> bool
        ensures { result ≡ is_some (node_at self.now.places id) }
    {
        matches!(self.places.get(id.place), Some(Place::Holds(_)))
    }

    /// The node of an id.
    pub fn read(&self, id: NodeId) -> &Node
        requires { IsHeld self.now.places id }
        ensures node { node_at self.now.places id ≡ Some result.now }
        ensures still { IsStill self.now }
    {
        let Place::Holds(node) = &self.places[id.place] else {
            unreachable!()
        };
        node
    }

    /// Begins a batch, which `commit` or `rollback` ends. It takes no memory and no longer for more nodes.
    pub fn begin(&mut self)
        requires idle { self.old.begun ≡ None }
        requires none_lent { NoneLent self.old.places }
        ensures { self.new ≡ record { places = self.old.places; begun = Some self.old.places; moved = [] } }
    {
        self.moved.clear();
        self.begun = Some(self.places.len());
    }

    /// Lends a node, which moves out until its lease is given back. It counts one step. `NoMemory` where the
    /// batch's notes of it were refused memory: the arena is unchanged.
    pub fn lend<L: Ledger>(&mut self, id: NodeId, steps: &mut Steps<L>) -> Result<Lease, NoMemory>
        requires under_way { IsSome self.old.begun }
        requires held { IsHeld self.old.places id }
        ensures lease { IfOk result (λ lease.
            (lease.id ≡ id) × (node_at self.old.places id ≡ Some lease.node)) }
        ensures ok { OnOk result
            (self.new ≡ record self.old
            { places = with_place self.old.places id Place.Lent; moved = self.old.moved ++ id ∷ [] }) }
        ensures err { OnErr result (self.new ≡ self.old) }
        ensures ticks { steps.new ≡ steps.old + 1 }
    {
        steps.tick();
        self.moved.reserve(1)?;
        self.journal.save(id, &self.places)?;
        let held = mem::replace(&mut self.places[id.place], Place::Lent);
        let Place::Holds(node) = held else {
            unreachable!()
        };
        self.moved.push_reserved(id);
        Ok(Lease { id, node })
    }

    /// Puts a new node into the arena, at an id that was free when the batch began, and still is. It counts one step.
    /// `NoMemory` where room was refused: the arena is unchanged, and the node is dropped.
    pub fn take<L: Ledger>(&mut self, node: Node, steps: &mut Steps<L>) -> Result<NodeId, NoMemory>
        requires { IsSome self.old.begun }
        ensures vacant { IfOk result (λ id. IsVacant self.old.places id) }
        ensures unused { IfOk result (λ id. IsVacantAtBegin self.old id) }
        ensures ok { IfOk result (λ id.
            self.new ≡ record self.old
            { places = with_place self.old.places id (Place.Holds node); moved = self.old.moved ++ id ∷ [] }) }
        ensures err { OnErr result (self.new ≡ self.old) }
        ensures ticks { steps.new ≡ steps.old + 1 }
    {
        steps.tick();
        self.moved.reserve(1)?;
        let id = put(&mut self.places, &mut self.journal, node)?;
        self.moved.push_reserved(id);
        Ok(id)
    }

    /// Puts a lent node back at its id, as it is in the lease. It takes no memory.
    pub fn give_back(&mut self, lease: Lease)
        requires { IsLent self.old.places lease.id }
        ensures { self.new ≡ record self.old
            { places = with_place self.old.places lease.id (Place.Holds lease.node) } }
    {
        let Lease { id, node } = lease;
        self.places[id.place] = Place::Holds(node);
    }

    /// Drops a node. Its id is free from the next batch on. `NoMemory` where the batch's notes of it were refused
    /// memory: the arena is unchanged.
    pub fn drop_node(&mut self, id: NodeId) -> Result<(), NoMemory>
        requires under_way { IsSome self.old.begun }
        requires held { IsHeld self.old.places id }
        ensures ok { OnOk result
            (self.new ≡ record self.old
            { places = with_place self.old.places id Place.Empty }) }
        ensures err { OnErr result (self.new ≡ self.old) }
    {
        self.journal.save(id, &self.places)?;
        self.places[id.place] = Place::Empty;
        Ok(())
    }

    /// Ends the batch, whose changes stay. It takes no memory, so that a batch that came so far isn't refused, and
    /// its time grows with the places that the batch touched, and not with the arena.
    pub fn commit(&mut self)
        requires under_way { IsSome self.old.begun }
        requires none_lent { NoneLent self.old.places }
        ensures committed { self.new ≡ record self.old { begun = None } }
        ensures still { IsStill self.old }
    {
        self.journal.forget(&self.places);
        self.begun = None;
    }

    /// Ends the batch and takes its changes back: each id has the node that it had at the begin, the ids that the
    /// batch took are free, and none counts as moved. It takes no memory, since it follows a refusal of it, and its
    /// time grows with the places that the batch touched, and not with the arena.
    pub fn rollback(&mut self)
        requires under_way { IsSome self.old.begun }
        requires none_lent { NoneLent self.old.places }
        ensures { self.new ≡ undone self.old }
    {
        let Some(count) = self.begun.take() else {
            unreachable!()
        };
        self.journal.put_back(&mut self.places, count);
        self.moved.clear();
    }
}
