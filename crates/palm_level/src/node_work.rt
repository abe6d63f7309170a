// One inner node of a level: from what stands for its children to what stands for it.
ghost use Rattle.std.specs.Prelude.{◌≡◌, ◌+◌, ◌-◌, ◌<◌, ◌≤◌, ◌++◌, [], length, take};
ghost use Rattle.std.specs.Prelude.{drop, map};
ghost use Rattle.std.specs.Vec.{vec_len, vec_capacity};
ghost use Rattle.palm_base.specs.Cut.{piece_count, cut};
ghost use Rattle.std.specs.List.{AllByRecursion};
ghost use Rattle.palm_node.specs.InnerNode.{IsInner, Rise, later_lows};
ghost use Rattle.palm_level.specs.Splices.{last_step, children_of, children_left, PlacesRise};
ghost use Rattle.palm_level.specs.Works.{later_over, first_node, parts_left, CanSplice, IsReady, HasRun};

use palm_arena::Lease;
use palm_base::MOST_CHILDREN;
use palm_node::{Change, Inner, Node, NodeId, Path, Piece, piece_size, pieces};

/// A later node of those that stand for one, which has no id yet.
#[derive(Drop)]
pub struct LaterNode {
    /// The packed key at which its range begins.
    pub low: u64,
    /// Its children and the keys between them.
    pub node: Inner,
}

/// The last step of a path.
pub fn last_step_of(path: &Path) -> (NodeId, usize)
    requires { 0 < length path.now }
    ensures { result ≡ last_step path.now }
{
    path.get(path.len() - 1)
}

// Appends the children of a node from one place up to another, with their lows.
fn append_own(inner: &Inner, from: usize, to: usize, children: &mut Vec<Piece>)
    requires inner { IsInner inner.now }
    requires order { from ≤ to }
    requires inside { to ≤ length inner.now.children }
    requires room { vec_len children.old + (to - from) ≤ vec_capacity children.old }
    ensures items { children.new.items ≡ children.old.items ++ take (to - from)
        (drop from (children_of inner.now)) }
    ensures len { vec_len children.new ≡ vec_len children.old + (to - from) }
    ensures capacity { vec_capacity children.new ≡ vec_capacity children.old }
{
    for i in from..to {
        let low = inner.low_of_child(i, 0);
        children.push_reserved(Piece {
            low,
            id: inner.child(i),
        });
    }
}

// Appends pieces.
fn append_pieces(pieces: &[Piece], children: &mut Vec<Piece>)
    requires room { vec_len children.old + length pieces.now ≤ vec_capacity children.old }
    ensures items { children.new.items ≡ children.old.items ++ pieces.now }
    ensures capacity { vec_capacity children.new ≡ vec_capacity children.old }
{
    for piece in pieces {
        children.push_reserved(*piece);
    }
}

/// The children of a node, where each changed child gives way to its pieces.
pub fn splice(inner: &Inner, changes: &[Change], children: &mut Vec<Piece>)
    requires paths { AllByRecursion (λ change. 0 < length change.path) changes.now }
    requires places { PlacesRise 0 (length inner.now.children) changes.now }
    requires empty { children.old.items ≡ [] }
    requires room { length (children_left inner.now changes.now) ≤ vec_capacity children.old }
    ensures { children.new.items ≡ children_left inner.now changes.now }
{
    let count = inner.len();
    let mut from: usize = 0;
    for change in changes {
        let (_, place) = last_step_of(&change.path);
        append_own(inner, from, place, children);
        append_pieces(change.pieces.as_slice(), children);
        from = place + 1;
    }
    append_own(inner, from, count, children);
}

// The nodes over the parts that children are cut into, past the first part.
fn cut_later(children: &[Piece], later: &mut Vec<LaterNode>)
    requires some { 1 ≤ length children.now }
    requires rising { Rise (later_lows children.now) }
    requires empty { later.old.items ≡ [] }
    requires room { piece_count MOST_CHILDREN (length children.now) ≤ vec_capacity later.old + 1 }
    ensures { later.new.items ≡ map later_over (drop 1 (cut MOST_CHILDREN children.now)) }
{
    let count = pieces(MOST_CHILDREN, children.len());
    let (_, mut rest) = children.split_at(piece_size(MOST_CHILDREN, children.len(), 0));
    for i in 1..count {
        let (part, after) = rest.split_at(piece_size(MOST_CHILDREN, children.len(), i));
        later.push_reserved(LaterNode {
            low: part[0].low,
            node: Inner::over(part),
        });
        rest = after;
    }
}

// Makes a node anew over what stands for its children: itself over the first part, and a node over each later one.
// Where no child is left it stays as it was.
fn rework(
    inner: &mut Inner,
    changes: &[Change],
    children: &mut Vec<Piece>,
    later: &mut Vec<LaterNode>,
)
    requires can { CanSplice inner.old changes.now }
    requires no_children { children.old.items ≡ [] }
    requires no_later { later.old.items ≡ [] }
    requires children_room { length (children_left inner.old changes.now) ≤ vec_capacity children.old }
    requires later_room { piece_count MOST_CHILDREN (length (children_left inner.old changes.now)) ≤
        vec_capacity later.old + 1 }
    ensures node { inner.new ≡ first_node inner.old (parts_left inner.old changes.now) }
    ensures children { children.new.items ≡ children_left inner.old changes.now }
    ensures later { later.new.items ≡ map later_over (drop 1 (parts_left inner.old changes.now)) }
{
    splice(inner, changes, children);
    if children.is_empty() {
        return;
    }
    let size = piece_size(MOST_CHILDREN, children.len(), 0);
    *inner = Inner::over(&children[..size]);
    cut_later(children, later);
}

/// The work on an inner node whose children changed.
pub struct LevelWork<'a> {
    /// The node.
    pub lease: Lease,
    /// The changes of its children, from left to right.
    pub changes: &'a [Change],
    /// Room for its children, which are listed here when it is made anew.
    pub children: Vec<Piece>,
    /// Room for the nodes past the first that the children are cut into.
    pub later: Vec<LaterNode>,
}

impl LevelWork<'_> {
    /// Makes the node in the lease anew, over what stands for its children.
    pub fn run(&mut self)
        requires { IsReady self.old }
        ensures { HasRun self.old self.new }
    {
        let Node::Inner(inner) = self.lease.node_mut() else {
            unreachable!()
        };
        rework(inner, self.changes, &mut self.children, &mut self.later);
    }
}
