// A tree's shape as text, level by level.
ghost use Rattle.std.specs.Prelude.{◌≡◌, ◌++◌, ◌∷◌, [], OnOk, OnErr};
ghost use Rattle.std.specs.List.{AllByRecursion};
ghost use Rattle.palm_base.specs.Extends.{Extends};
ghost use Rattle.palm_base.specs.Key.{IsKey};
ghost use Rattle.palm_base.specs.Shape.{leaf_line, separator_text, shape_text};
ghost use Rattle.palm_arena.specs.Reads.{map_of};
ghost use Rattle.palm_tree.specs.TreeValue.{tree_in};
ghost use Rattle.palm_tree.specs.Walk.{inner_text, nodes_text, ids_below, levels_text, IsPrintable, ArePrintable};

use crate::tree::Tree;
use palm_arena::{Arena, Shape};
use palm_base::text::{append, append_digits, append_listed_row, append_number, whole_or_nothing};
use palm_base::{Digits, NoMemory};
use palm_node::{Inner, Leaf, Node, NodeId};
use std::mem;

fn append_leaf(leaf: &Leaf, out: &mut Vec<u8>) -> Result<(), NoMemory>
    ensures ok { OnOk result (out.new.items ≡ out.old.items ++ leaf_line leaf.now) }
    ensures kept { Extends out.old.items out.new.items }
{
    append(b"leaf ", out)?;
    append_number(leaf.len() as u64, out)?;
    for i in 0..leaf.len() {
        append_listed_row(&leaf.row(i), out)?;
    }
    append(b"\n", out)
}

fn append_separator(key: u64, out: &mut Vec<u8>) -> Result<(), NoMemory>
    requires { IsKey key }
    ensures ok { OnOk result (out.new.items ≡ out.old.items ++ separator_text key) }
    ensures kept { Extends out.old.items out.new.items }
{
    append(b" ", out)?;
    append_digits(&Digits::of_key(key), out)
}

fn append_inner(inner: &Inner, out: &mut Vec<u8>) -> Result<(), NoMemory>
    requires { AllByRecursion IsKey inner.now.separators }
    ensures ok { OnOk result (out.new.items ≡ out.old.items ++ inner_text inner.now) }
    ensures kept { Extends out.old.items out.new.items }
{
    append(b"inner ", out)?;
    append_number(inner.len() as u64, out)?;
    for i in 0..inner.len() - 1 {
        append_separator(inner.separator(i), out)?;
    }
    append(b"\n", out)
}

// Lists the children of an inner node.
fn append_children(inner: &Inner, ids: &mut Vec<NodeId>) -> Result<(), NoMemory>
    ensures { OnOk result (ids.new.items ≡ ids.old.items ++ inner.now.children) }
{
    for i in 0..inner.len() {
        ids.push(inner.child(i))?;
    }
    Ok(())
}

// Appends the lines of a level's nodes, and lists their children.
fn append_level(
    arena: &Arena,
    ids: &[NodeId],
    below: &mut Vec<NodeId>,
    out: &mut Vec<u8>,
) -> Result<(), NoMemory>
    requires { AllByRecursion (λ id. IsPrintable (map_of arena.now.places id)) ids.now }
    ensures text { OnOk result
        (out.new.items ≡ out.old.items ++ nodes_text (map_of arena.now.places) ids.now) }
    ensures below { OnOk result
        (below.new.items ≡ below.old.items ++ ids_below (map_of arena.now.places) ids.now) }
    ensures kept { Extends out.old.items out.new.items }
{
    for id in ids {
        match arena.read(*id) {
            Node::Leaf(leaf) => append_leaf(leaf, out)?,
            Node::Inner(inner) => {
                append_inner(inner, out)?;
                append_children(inner, below)?;
            }
        }
    }
    Ok(())
}

// Appends the lines of all nodes, level by level from the root.
fn append_levels(arena: &Arena, shape: Shape, out: &mut Vec<u8>) -> Result<(), NoMemory>
    requires { ArePrintable (map_of arena.now.places) shape.levels (shape.root ∷ []) }
    ensures ok { OnOk result
        (out.new.items ≡ out.old.items ++ levels_text (map_of arena.now.places) shape.levels
        (shape.root ∷ [])) }
    ensures kept { Extends out.old.items out.new.items }
{
    let alloc = *out.allocator();
    let mut ids = Vec::new(alloc);
    let mut below = Vec::new(alloc);
    ids.push(shape.root)?;
    for _level in 0..shape.levels {
        append_level(arena, &ids, &mut below, out)?;
        mem::swap(&mut ids, &mut below);
        below.clear();
    }
    Ok(())
}

fn append_shape(tree: &Tree, out: &mut Vec<u8>) -> Result<(), NoMemory>
    ensures ok { OnOk result (out.new.items ≡ out.old.items ++ shape_text (tree_in tree.now)) }
    ensures kept { Extends out.old.items out.new.items }
{
    append(b"tree ", out)?;
    append_number(u64::from(tree.shape.levels), out)?;
    append(b" ", out)?;
    append_number(tree.rows, out)?;
    append(b"\n", out)?;
    append_levels(&tree.arena, tree.shape, out)
}

impl Tree {
    /// Appends the text of the tree's shape: how many levels and rows it has, and its nodes, level by level. `out` is
    /// unchanged where memory is refused. Beside the text it keeps no more than the ids of two levels.
    pub fn dump(&self, out: &mut Vec<u8>) -> Result<(), NoMemory>
        ensures ok { OnOk result (out.new.items ≡ out.old.items ++ shape_text (tree_in self.now)) }
        ensures err { OnErr result (out.new.items ≡ out.old.items) }
    {
        let before = out.len();
        let dumped = append_shape(self, out);
        whole_or_nothing(before, dumped, out)
    }
}
