// One leaf's work: from its rows and its parts to the answers and the leaves that stand for it.
ghost use Rattle.std.specs.Prelude.{◌≡◌, ℕ, ◌≤◌, ◌<◌, ◌+◌, ◌∷◌, ◌⊎◌, true, false};
ghost use Rattle.std.specs.Prelude.{List, [], length, map, take, Some, vec_len, vec_capacity};
ghost use Rattle.std.specs.List.{AllByRecursion};
ghost use Rattle.palm_base.specs.Table.{IsTable, after_all};
ghost use Rattle.palm_base.specs.Cut.{piece_count, piece_size};
ghost use Rattle.palm_base.specs.Pass.{is_small, leaves_of};
ghost use Rattle.palm_base.specs.declared.row.Row.{Row};
ghost use Rattle.palm_leaf.specs.Answers.{answers_in, rows_in_node};
ghost use Rattle.palm_leaf.specs.Asked.{all_keep, set_count};
ghost use Rattle.palm_leaf.specs.Routed.{HasKey};
ghost use Rattle.palm_route.specs.Edits.{edits_of};
ghost use Rattle.palm_leaf.specs.Worked.{answers_of_plan, low_and_rows, parts_of_plan, IsPlan, IsResolved, IsReady};
ghost use Rattle.palm_leaf.specs.Worked.{HasRun};

use crate::rows::{Asked, has_edit, resolve, write_all};
use palm_arena::Lease;
use palm_base::{MOST_LEAF_ROWS, Row};
use palm_node::{Leaf, Node, Path, piece_size, pieces};
use palm_share::Job;

/// A new leaf, which has no id yet.
#[derive(Debug, Drop)]
pub struct NewLeaf {
    /// The packed key of its first row.
    pub low: u64,
    /// Its rows.
    pub leaf: Leaf,
}

/// What is to be done with a leaf, with room for all that comes of it.
#[derive(Debug, Drop)]
pub struct LeafPlan<'a> {
    /// The way to the leaf from the root, which stays with the leaf's group, since it is wide.
    pub path: &'a Path,
    /// The leaf's low, as its parent has written it.
    pub low: u64,
    /// With some rows, but fewer than this, the leaf is removed.
    pub least: usize,
    /// The parts, in the order of their arrival.
    pub asked: Vec<Asked>,
    /// Whether all is done where the leaf's rows stand: no part takes a row out or lists any, and the leaf has room
    /// for those that they add. It stands on then, and its rows needn't be listed.
    pub fits: bool,
    /// The rows, while they are changed. They are loose in the end where the leaf isn't kept.
    pub rows: Vec<Row>,
    /// The leaves past the first that the rows are cut into.
    pub later: Vec<NewLeaf>,
    /// Whether the leaf stands on, with the first of the rows.
    pub kept: bool,
}

/// A lent leaf with its plan. It can't be dropped, since its lease has to be given back.
#[derive(Debug)]
pub struct LeafWork<'a> {
    /// The leaf.
    pub lease: Lease,
    /// What is to be done with it.
    pub plan: LeafPlan<'a>,
}

/// Cuts the rows past the first piece into leaves, for which there is room.
pub fn cut_later(rows: &[Row], later: &mut Vec<NewLeaf>)
    requires table { IsTable rows.now }
    requires some { 0 < length rows.now }
    requires empty { later.old.items ≡ [] }
    requires room { piece_count MOST_LEAF_ROWS (length rows.now) ≤ vec_capacity later.old + 1 }
    ensures count { vec_len later.new + 1 ≡ piece_count MOST_LEAF_ROWS (length rows.now) }
    ensures pieces { (low : ℕ)
        → (low, take (piece_size MOST_LEAF_ROWS (length rows.now) 0) rows.now) ∷ map low_and_rows
        later.new.items
        ≡ leaves_of low rows.now }
{
    let count = rows.len();
    let (_, mut rest) = rows.split_at(piece_size(MOST_LEAF_ROWS, count, 0));
    for i in 1..pieces(MOST_LEAF_ROWS, count) {
        let (part, behind) = rest.split_at(piece_size(MOST_LEAF_ROWS, count, i));
        later.push_reserved(NewLeaf {
            low: part[0].prefix.key(),
            leaf: Leaf::from_rows(part),
        });
        rest = behind;
    }
}

impl LeafPlan<'_> {
    // Whether the leaf stands on: rows are left, and not too few.
    fn stays(&self) -> bool
        ensures stays { result ≡ true
            → (0 < length self.now.rows.items)
            × (is_small self.now.least self.now.rows.items ≡ false) }
        ensures removed { result ≡ false
            → (self.now.rows.items ≡ []) ⊎ (is_small self.now.least self.now.rows.items ≡ true) }
    {
        !self.rows.is_empty() && self.rows.len() >= self.least
    }
}

/// Lists the rows of a leaf and resolves the parts on them.
pub fn resolve_parts(node: &Node, plan: &mut LeafPlan<'_>)
    requires leaf { (rows : List Row) × (node.now ≡ Node.Leaf rows) }
    requires plan { IsPlan (length (rows_in_node (Some node.now))) plan.old }
    requires listed { plan.old.fits ≡ false }
    ensures resolved { IsResolved (rows_in_node (Some node.now)) plan.old plan.new }
    ensures few { length (rows_in_node (Some node.now)) ≤ MOST_LEAF_ROWS }
{
    let Node::Leaf(leaf) = node else {
        unreachable!()
    };
    leaf.append_rows_reserved(&mut plan.rows);
    resolve(&mut plan.rows, &mut plan.asked);
}

// Resolves the parts, Sets and look-ups, in the leaf itself, which stands on.
fn write_parts(lease: &mut Lease, plan: &mut LeafPlan<'_>)
    requires leaf { (rows : List Row) × (lease.old.node ≡ Node.Leaf rows) }
    requires keep { all_keep (parts_of_plan plan.old) ≡ true }
    requires keys { AllByRecursion (λ one. HasKey one.part) plan.old.asked.items }
    requires room { length (rows_in_node (Some lease.old.node)) + set_count (parts_of_plan plan.old)
        ≤ MOST_LEAF_ROWS }
    ensures id { lease.new.id ≡ lease.old.id }
    ensures leaf { lease.new.node
        ≡ Node.Leaf (after_all (rows_in_node (Some lease.old.node)) (edits_of (parts_of_plan plan.old))) }
    ensures plan { plan.new ≡ record plan.old { asked = plan.new.asked; kept = true } }
    ensures answers { answers_of_plan plan.new ≡ answers_in (rows_in_node (Some lease.old.node))
        (parts_of_plan plan.old) }
    ensures no_fewer { length (rows_in_node (Some lease.old.node)) ≤ length
        (rows_in_node (Some lease.new.node)) }
    ensures few { length (rows_in_node (Some lease.new.node)) ≤ MOST_LEAF_ROWS }
{
    let Node::Leaf(leaf) = lease.node_mut() else {
        unreachable!()
    };
    write_all(leaf, &mut plan.asked);
    // Its contract says that the leaf is narrow, which `few` promises.
    let _ = leaf.len();
    plan.kept = true;
}

// Writes the first of the rows into the leaf, and cuts the others into later ones.
fn keep(lease: &mut Lease, plan: &mut LeafPlan<'_>)
    requires leaf { (rows : List Row) × (lease.old.node ≡ Node.Leaf rows) }
    requires some { 0 < length plan.old.rows.items }
    requires table { IsTable plan.old.rows.items }
    requires empty { plan.old.later.items ≡ [] }
    requires room { piece_count MOST_LEAF_ROWS (length plan.old.rows.items) ≤ vec_capacity
        plan.old.later + 1 }
    ensures id { lease.new.id ≡ lease.old.id }
    ensures leaf { (rows : List Row) × (lease.new.node ≡ Node.Leaf rows) }
    ensures count { vec_len plan.new.later + 1 ≡ piece_count MOST_LEAF_ROWS (length plan.old.rows.items) }
    ensures plan { plan.new ≡ record plan.old { later = plan.new.later; kept = true } }
    ensures pieces { (low : ℕ)
        → (low, rows_in_node (Some lease.new.node)) ∷ map low_and_rows plan.new.later.items
        ≡ leaves_of low plan.old.rows.items }
{
    let first = piece_size(MOST_LEAF_ROWS, plan.rows.len(), 0);
    let Node::Leaf(leaf) = lease.node_mut() else {
        unreachable!()
    };
    leaf.set_pairs(&plan.rows[..first]);
    cut_later(&plan.rows, &mut plan.later);
    plan.kept = true;
}

impl Job for LeafWork<'_> {
    ghost ready = { IsReady };

    ghost ran = { HasRun };

    fn run(&mut self) {
        if self.plan.fits {
            write_parts(&mut self.lease, &mut self.plan);
            return;
        }
        let edited = has_edit(&self.plan.asked);
        resolve_parts(self.lease.node(), &mut self.plan);
        if self.plan.stays() {
            if edited {
                keep(&mut self.lease, &mut self.plan);
            } else {
                // The leaf has the rows that it had, and few enough: it needn't be written.
                self.plan.kept = true;
            }
        }
    }
}
