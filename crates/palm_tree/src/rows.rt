// All rows of the table, leaf after leaf.
ghost use Rattle.std.specs.Prelude.{◌≡◌, ◌++◌, OnOk, IfOk};
ghost use Rattle.palm_base.specs.Tree.{rows_of};
ghost use Rattle.palm_tree.specs.Below.{HasNodeBelow, rows_below};
ghost use Rattle.palm_tree.specs.TreeValue.{tree_in};

use crate::tree::Tree;
use palm_arena::Arena;
use palm_base::{NoMemory, Row, RowList};
use palm_node::{Node, NodeId};

// Appends the rows that stand below a node, child after child.
fn append_below(arena: &Arena, id: NodeId, below: u32, rows: &mut Vec<Row>) -> Result<(), NoMemory>
    requires node { HasNodeBelow arena.now.places below id }
    ensures ok { OnOk result (rows.new.items ≡ rows.old.items ++ rows_below arena.now.places below id) }
{
    let inner = match arena.read(id) {
        Node::Leaf(leaf) => return leaf.append_rows(rows),
        Node::Inner(inner) => inner,
    };
    for i in 0..inner.len() {
        append_below(arena, inner.child(i), below - 1, rows)?;
    }
    Ok(())
}

impl Tree {
    /// All rows of the table, in the order of their prefixes. `NoMemory` where room for them was refused. It takes
    /// room for as many rows as there are once, and visits each node once.
    pub fn all_rows(&self) -> Result<RowList, NoMemory>
        ensures { IfOk result (λ rows. rows ≡ rows_of (tree_in self.now)) }
    {
        let mut rows = Vec::with_capacity(self.arena.allocator(), self.rows as usize)?;
        let below = self.shape.levels - 1;
        append_below(&self.arena, self.shape.root, below, &mut rows)?;
        Ok(RowList::from_vec(rows))
    }
}
