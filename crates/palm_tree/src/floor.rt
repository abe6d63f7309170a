// The look-up of what stands last at or before a key: down once to the leaf whose range has the key, and then from
// its end.
ghost use Rattle.std.specs.Prelude.{◌≡◌, ℕ, List, take, IfSome, IfNone};
ghost use Rattle.palm_base.specs.Key.{key};
ghost use Rattle.palm_base.specs.Tree.{rows_of};
ghost use Rattle.palm_base.specs.declared.row.Row.{Row};
ghost use Rattle.palm_tree.specs.Floors.{IsFloor, IsLast, IsSpotFor, NoneWithin, shared_below};
ghost use Rattle.palm_tree.specs.Jumps.{IsFrontOf, IsJump};
ghost use Rattle.palm_tree.specs.TreeValue.{tree_in};

use crate::tree::Tree;
use palm_base::{Digits, Row};
use palm_node::{Leaf, Node, NodeId};

/// What stands last at or before a key, in the leaf whose range has the key.
#[derive(Drop)]
pub(crate) enum Floor {
    /// The last row there.
    Last(Row),
    /// No row, but the beginning of the leaf's range.
    Low(Digits),
    /// No row, and the leaf is the first.
    Start,
}

/// What is found for a number where one of its fronts is looked up.
#[derive(Drop)]
pub(crate) enum Jump {
    /// The row that rates the number, or that none does.
    Done(Option<Row>),
    /// How long the next front is that is looked up.
    To(u32),
}

/// The leaf whose range has a key, and where this range begins.
#[derive(Clone, Copy, Debug)]
pub(crate) struct Spot {
    pub(crate) id: NodeId,
    pub(crate) low: u64,
}

/// How many digits a number shares at its front with a bound, fewer than the bound has.
pub(crate) fn shared_below(bound: &Digits, number: &Digits) -> u32
    ensures { result ≡ shared_below bound.now number.now }
{
    let most = number.len().min(bound.len() - 1);
    for place in 0..most {
        if bound.digit(place) != number.digit(place) {
            return place;
        }
    }
    most
}

/// The row that rates a number, or how long the next front is, by what stands last at or before a front of it.
/// Where that doesn't begin the number, no front of it longer than what they share is a row.
pub(crate) fn jump_from(floor: Floor, number: &Digits) -> Jump
    ensures { (rows : List Row) (n : ℕ) → IsFrontOf n number.now
        → IsFloor rows (key (take n number.now)) floor → IsJump rows number.now n result }
{
    let bound = match floor {
        Floor::Last(row) => {
            if row.prefix.begins(number) {
                return Jump::Done(Some(row));
            }
            row.prefix
        }
        Floor::Low(low) => low,
        Floor::Start => return Jump::Done(None),
    };
    match shared_below(&bound, number) {
        0 => Jump::Done(None),
        len => Jump::To(len),
    }
}

// The last of a leaf's rows at or before a key.
fn last_at_most(leaf: &Leaf, key: u64) -> Option<Row>
    ensures found { IfSome result (IsLast leaf.now key) }
    ensures none { IfNone result (NoneWithin 0 key leaf.now) }
{
    let mut end = leaf.len();
    while end > 0 {
        let row = leaf.row(end - 1);
        if row.prefix.key() <= key {
            return Some(row);
        }
        end -= 1;
    }
    None
}

impl Tree {
    // The leaf whose range has a key, and where this range begins. It reads one node on each level above.
    fn leaf_for(&self, key: u64) -> Spot
        ensures { IsSpotFor self.now key result }
    {
        let mut id = self.shape.root;
        let mut low = 0;
        for _level in 1..self.shape.levels {
            let Node::Inner(inner) = self.arena.read(id) else {
                unreachable!()
            };
            let place = inner.route(key);
            low = inner.low_of_child(place, low);
            id = inner.child(place);
        }
        Spot { id, low }
    }

    /// What stands last at or before a key, whose leaf this is.
    pub(crate) fn floor_at(&self, key: u64, spot: Spot) -> Floor
        requires { IsSpotFor self.now key spot }
        ensures { IsFloor (rows_of (tree_in self.now)) key result }
    {
        let Node::Leaf(leaf) = self.arena.read(spot.id) else {
            unreachable!()
        };
        match last_at_most(leaf, key) {
            Some(row) => Floor::Last(row),
            None if spot.low == 0 => Floor::Start,
            None => Floor::Low(Digits::of_key(spot.low)),
        }
    }

    /// What stands last at or before a prefix. It reads one node on each level.
    pub(crate) fn floor(&self, prefix: &Digits) -> Floor
        ensures { IsFloor (rows_of (tree_in self.now)) (key prefix.now) result }
    {
        let key = prefix.key();
        self.floor_at(key, self.leaf_for(key))
    }
}
