// The look-up of a range of rows: down once to where it begins, and then along its leaves.
ghost use Rattle.std.specs.Prelude.{◌≡◌, ◌≤◌, ◌++◌, length, take, filter, OnOk, IfOk};
ghost use Rattle.palm_base.specs.Key.{key};
ghost use Rattle.palm_base.specs.Table.{lies_within};
ghost use Rattle.palm_base.specs.Tree.{rows_of};
ghost use Rattle.palm_tree.specs.Below.{HasNodeBelow, rows_below};
ghost use Rattle.palm_tree.specs.TreeValue.{tree_in};

use crate::tree::Tree;
use palm_arena::Arena;
use palm_base::{Digits, Limit, NoMemory, RowList};
use palm_node::{Leaf, Node, NodeId};

// The rows that are looked for: those from one key to another, both included, and `limit` of them at most.
#[derive(Drop)]
struct Range {
    from: u64,
    to: u64,
    limit: usize,
}

// Appends a leaf's rows of the range, as far as the limit allows.
fn append_from_leaf(leaf: &Leaf, range: &Range, rows: &mut RowList) -> Result<(), NoMemory>
    requires within { length rows.old ≤ range.now.limit }
    ensures ok { OnOk result
        (rows.new ≡ take range.now.limit
        (rows.old ++ filter (lies_within range.now.from range.now.to) leaf.now)) }
{
    for i in 0..leaf.len() {
        let row = leaf.row(i);
        let key = row.prefix.key();
        if key > range.to || rows.len() == range.limit {
            break;
        }
        if key >= range.from {
            rows.push(row)?;
        }
    }
    Ok(())
}

// Appends the rows of the range that stand below a node, as far as the limit allows. It visits the children from
// the one where the range begins to the one where it ends, and none of them once the limit is reached.
fn append_below(
    arena: &Arena,
    id: NodeId,
    below: u32,
    range: &Range,
    rows: &mut RowList,
) -> Result<(), NoMemory>
    requires node { HasNodeBelow arena.now.places below id }
    requires within { length rows.old ≤ range.now.limit }
    ensures ok { OnOk result
        (rows.new ≡ take range.now.limit
        (rows.old ++ filter (lies_within range.now.from range.now.to)
        (rows_below arena.now.places below id))) }
{
    let inner = match arena.read(id) {
        Node::Leaf(leaf) => return append_from_leaf(leaf, range, rows),
        Node::Inner(inner) => inner,
    };
    let last = inner.route(range.to);
    let mut i = inner.route(range.from);
    while i <= last && rows.len() < range.limit {
        append_below(arena, inner.child(i), below - 1, range, rows)?;
        i += 1;
    }
    Ok(())
}

impl Tree {
    /// The rows whose prefixes stand from one to another, both included, in order, `limit` of them at most.
    /// `NoMemory` where room for them was refused. It goes down once, to where the range begins, and then along its
    /// leaves, to where the range ends or the limit is reached.
    pub fn list(&self, from: &Digits, to: &Digits, limit: Limit) -> Result<RowList, NoMemory>
        ensures { IfOk result (λ rows.
            rows ≡ take limit
            (filter (lies_within (key from.now) (key to.now)) (rows_of (tree_in self.now)))) }
    {
        let range = Range {
            from: from.key(),
            to: to.key(),
            limit: limit.get() as usize,
        };
        let mut rows = RowList::new(self.arena.allocator());
        let below = self.shape.levels - 1;
        append_below(&self.arena, self.shape.root, below, &range, &mut rows)?;
        Ok(rows)
    }
}
