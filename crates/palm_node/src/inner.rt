// An inner node: up to `MOST_CHILDREN` children, and between each two of them a separator, the key at which the
// right one begins. Here is one of the children a, b and c, with the keys of 2 and 44 between them:
//
//     children           a                  | b                  | c | -  ..  -     128 bytes
//     how many children  3                                                            8 bytes
//     separators         0x2000000000000001 | 0x4400000000000002 | -  ..  -         128 bytes
//
// So prefixes that stand before 2 are in a, those from 2 on in b, and those from 44 on in c. It is 264 bytes wide.
// The separators stand side by side in words, so that a search compares eight of them at once where they are. One
// word fewer counts than there are children, and the last one never does: it makes the room a multiple of eight.
ghost use Rattle.std.specs.Prelude.{◌≡◌, ◌≤◌, ◌<◌, ◌+◌, [], ◌∷◌, length, map, take};
ghost use Rattle.std.specs.Prelude.{count_by, nat_le, slice_get, Some};
ghost use Rattle.std.specs.List.Sorted.{IsStrictlyIncreasing};
ghost use Rattle.palm_node.specs.InnerNode.{IsInner, later_lows, inner_over};

use crate::id::{NodeId, Piece};
use arrayvec::ArrayVec;
use palm_base::MOST_CHILDREN;
use palm_lanes::count_at_most;
use std::marker::Model;

/// An inner node: 1 to `MOST_CHILDREN` children, and between each two of them the key at which the right one begins.
/// The separators strictly rise. Contracts see the two lists.
///
/// It has room for all children from the start, so no call on it takes memory.
#[derive(Debug, Drop)]
pub struct Inner {
    children: ArrayVec<NodeId, MOST_CHILDREN>,
    separators: [u64; MOST_CHILDREN],
}

impl Model for Inner {
    ghost use Rattle.std.specs.Prelude.{◌-◌, length, take};
    ghost use Rattle.palm_node.specs.InnerNode.{InnerNode, HoldsChildren};

    ghost Value = { InnerNode };

    ghost view = { λ a. record {
      children = a.children.items;
      separators = take (length a.children.items - 1) a.separators;
    } };

    ghost invariant = { λ a. HoldsChildren a.children.items a.separators };
}

// Puts children in place of those that stand there.
fn put_children(room: &mut ArrayVec<NodeId, MOST_CHILDREN>, children: &[NodeId])
    requires { length children.now ≤ MOST_CHILDREN }
    ensures { room.new.items ≡ children.now }
{
    room.clear();
    room.try_extend_from_slice(children).unwrap();
}

// Puts separators at the first places of their room.
fn put_separators(room: &mut [u64; MOST_CHILDREN], seps: &[u64])
    requires { length seps.now ≤ MOST_CHILDREN }
    ensures { take (length seps.now) room.new ≡ seps.now }
{
    room[..seps.len()].copy_from_slice(seps);
}

// Lists the ids and the lows of pieces.
fn list_pieces(
    pieces: &[Piece],
    ids: &mut ArrayVec<NodeId, MOST_CHILDREN>,
    lows: &mut ArrayVec<u64, MOST_CHILDREN>,
)
    requires few { length pieces.now ≤ MOST_CHILDREN }
    requires no_ids { ids.old.items ≡ [] }
    requires no_lows { lows.old.items ≡ [] }
    ensures ids { ids.new.items ≡ map (λ piece. piece.id) pieces.now }
    ensures lows { lows.new.items ≡ map (λ piece. piece.low) pieces.now }
{
    for piece in pieces {
        ids.push(piece.id);
        lows.push(piece.low);
    }
}

impl Inner {
    /// The inner node of these children, with these separators between them. It takes no memory.
    pub fn from_children(children: &[NodeId], seps: &[u64]) -> Inner
        requires some { 1 ≤ length children.now }
        requires few { length children.now ≤ MOST_CHILDREN }
        requires between { length seps.now + 1 ≡ length children.now }
        requires rising { IsStrictlyIncreasing seps.now }
        ensures children { result.children ≡ children.now }
        ensures separators { result.separators ≡ seps.now }
    {
        let mut room = ArrayVec::new();
        let mut separators = [0; MOST_CHILDREN];
        put_children(&mut room, children);
        put_separators(&mut separators, seps);
        Inner {
            children: room,
            separators,
        }
    }

    /// The inner node over pieces, each of which begins at its low. That of the first isn't asked. It takes no memory.
    pub fn over(pieces: &[Piece]) -> Inner
        requires some { 1 ≤ length pieces.now }
        requires few { length pieces.now ≤ MOST_CHILDREN }
        requires rising { IsStrictlyIncreasing (later_lows pieces.now) }
        ensures { result ≡ inner_over pieces.now }
    {
        let mut ids = ArrayVec::new();
        let mut lows = ArrayVec::new();
        list_pieces(pieces, &mut ids, &mut lows);
        Inner::from_children(&ids, &lows[1..])
    }

    /// The same node once more.
    pub fn copy(&self) -> Inner
        ensures { result ≡ self.now }
    {
        let mut children = ArrayVec::new();
        put_children(&mut children, &self.children);
        Inner {
            children,
            separators: self.separators,
        }
    }

    /// The number of children.
    pub fn len(&self) -> usize
        ensures len { result ≡ length self.now.children }
        ensures inner { IsInner self.now }
    {
        self.children.len()
    }

    /// The child at a place, counted from 0.
    pub fn child(&self, i: usize) -> NodeId
        requires { i < length self.now.children }
        ensures { slice_get self.now.children i ≡ Some result }
    {
        self.children[i]
    }

    /// The separator at a place, counted from 0: the key at which the next child begins.
    pub fn separator(&self, i: usize) -> u64
        requires { i + 1 < length self.now.children }
        ensures { slice_get self.now.separators i ≡ Some result }
    {
        let separators = &self.separators;
        separators[i]
    }

    /// The key at which the range of the child at a place begins, where the node's own range begins at `low`.
    pub fn low_of_child(&self, child: usize, low: u64) -> u64
        requires { child < length self.now.children }
        ensures { slice_get (low ∷ self.now.separators) child ≡ Some result }
    {
        if child == 0 {
            return low;
        }
        self.separator(child - 1)
    }

    /// The place of the child whose rows a key stands among: as many children stand to its left as there are separators
    /// at or below the key.
    pub fn route(&self, key: u64) -> usize
        ensures route { result ≡ count_by (λ s. nat_le s key) self.now.separators }
        ensures inside { result < length self.now.children }
        ensures few { result < MOST_CHILDREN }
    {
        count_at_most(&self.separators, self.children.len() - 1, key)
    }

    /// Puts these children and separators in place of the node's. It takes no memory.
    pub fn set_children(&mut self, children: &[NodeId], seps: &[u64])
        requires some { 1 ≤ length children.now }
        requires few { length children.now ≤ MOST_CHILDREN }
        requires between { length seps.now + 1 ≡ length children.now }
        requires rising { IsStrictlyIncreasing seps.now }
        ensures children { self.new.children ≡ children.now }
        ensures separators { self.new.separators ≡ seps.now }
    {
        put_children(&mut self.children, children);
        put_separators(&mut self.separators, seps);
    }
}
