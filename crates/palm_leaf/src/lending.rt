// Leaves are lent with their plans, worked on beside each other, and given back.
ghost use Rattle.std.specs.Prelude.{◌≡◌, ◌≤◌, ◌+◌, ◌++◌, ◌∷◌, [], List, length, map};
ghost use Rattle.std.specs.Prelude.{Some, IsSome, IfOk, OnOk, OnErr, vec_len, vec_capacity};
ghost use Rattle.std.specs.List.{AllByRecursion};
ghost use Rattle.palm_base.specs.declared.row.Row.{Row};
ghost use Rattle.palm_node.specs.declared.node.Node.TheVariants.{Leaf};
ghost use Rattle.palm_arena.specs.ArenaState.{node_at, with_place, IsLent, NoneLent};
ghost use Rattle.palm_arena.specs.Cells.{Cell, Owns, Turns};
ghost use Rattle.palm_arena.specs.Reads.{map_of};
ghost use Rattle.palm_arena.specs.declared.place.Place.TheVariants.{Lent, Holds};
ghost use Rattle.palm_leaf.specs.Ends.{group_cells};
ghost use Rattle.palm_leaf.specs.Lending.{LentAre, present, lease_ids, lease_cell, IsLoaded, Matched};
ghost use Rattle.palm_leaf.specs.Routed.{HasKey};
ghost use Rattle.palm_leaf.specs.Settling.{done_of};

use crate::leaf_work::{LeafPlan, LeafWork};
use crate::room::plan;
use palm_arena::Arena;
use palm_base::{NoMemory, Steps};
use palm_node::{Node, NodeId};
use palm_route::Group;
use std::alloc::Global;
use std::sync::ledger::Ledger;

/// A leaf that was given back, with what came of its plan.
#[derive(Debug, Drop)]
pub struct LeafDone<'a> {
    /// Where the leaf is.
    pub id: NodeId,
    /// Its plan, with the answers and with the rows that are left.
    pub plan: LeafPlan<'a>,
}

// Lends a group's leaf with its plan. The arena is unchanged where memory was refused.
fn lend_leaf<'a, L: Ledger>(
    alloc: Global,
    arena: &mut Arena,
    group: &'a Group,
    least: usize,
    steps: &mut Steps<L>,
) -> Result<LeafWork<'a>, NoMemory>
    requires under_way { IsSome arena.old.begun }
    requires leaf { (rows : List Row) × (node_at arena.old.places group.now.leaf ≡ Some (Leaf rows)) }
    requires keys { AllByRecursion HasKey group.now.parts }
    ensures work { IfOk result (λ work. IsLoaded (map_of arena.old.places) least group.now work) }
    ensures ok { OnOk result
        (arena.new ≡ record arena.old {
          places = with_place arena.old.places group.now.leaf Lent;
          moved = arena.old.moved ++ group.now.leaf ∷ [];
        }) }
    ensures err { OnErr result (arena.new ≡ arena.old) }
    ensures tick { OnOk result (steps.new ≡ steps.old + 1) }
    ensures ticks { OnErr result ((steps.old ≤ steps.new) × (steps.new ≤ steps.old + 1)) }
{
    let id = group.leaf;
    let Node::Leaf(leaf) = arena.read(id) else {
        unreachable!()
    };
    let plan = plan(alloc, group, leaf.len(), least)?;
    let lease = arena.lend(id, steps)?;
    Ok(LeafWork { lease, plan })
}

/// Lends the leaves of groups, each with its plan. Where memory was refused those that are listed are lent.
pub fn lend_leaves<'a, L: Ledger>(
    alloc: Global,
    arena: &mut Arena,
    groups: &'a [Group],
    least: usize,
    works: &mut Vec<Option<LeafWork<'a>>>,
    steps: &mut Steps<L>,
) -> Result<(), NoMemory>
    requires under_way { IsSome arena.old.begun }
    requires none_lent { NoneLent arena.old.places }
    requires leaves { (others : List Cell)
        × Owns (map_of arena.old.places)
        (group_cells (map_of arena.old.places) groups.now ++ others) }
    requires keys { AllByRecursion (λ group. AllByRecursion HasKey group.parts) groups.now }
    requires empty { works.old.items ≡ [] }
    requires room { length groups.now ≤ vec_capacity works.old }
    ensures works { OnOk result (map Some (present works.new.items) ≡ works.new.items) }
    ensures loaded { OnOk result
        (Matched (IsLoaded (map_of arena.old.places) least) groups.now
        (present works.new.items)) }
    ensures turned { OnOk result
        (Turns (map_of arena.old.places) (map_of arena.new.places)
        (group_cells (map_of arena.old.places) groups.now) []) }
    ensures lent { LentAre arena.new.places (lease_ids (present works.new.items)) }
    ensures begun { arena.new.begun ≡ arena.old.begun }
    ensures few { vec_len works.new ≤ length groups.now }
    ensures ticks { steps.new ≤ steps.old + length groups.now }
    ensures moved { length arena.new.moved + steps.old ≤ length arena.old.moved + steps.new }
{
    for group in groups {
        works.push_reserved(Some(lend_leaf(alloc, arena, group, least, steps)?));
    }
    Ok(())
}

// Gives a leaf back as its work left it.
fn give_back<'a>(arena: &mut Arena, work: LeafWork<'a>) -> LeafDone<'a>
    requires { IsLent arena.old.places work.lease.id }
    ensures done { result ≡ done_of work.entry }
    ensures arena { arena.new ≡ record arena.old
        { places = with_place arena.old.places work.entry.lease.id (Holds work.entry.lease.node) } }
{
    let LeafWork { lease, plan } = work;
    let id = lease.id();
    arena.give_back(lease);
    LeafDone { id, plan }
}

/// Gives all leaves back, and lists them in their order.
pub fn give_leaves_back<'a>(
    arena: &mut Arena,
    works: Vec<Option<LeafWork<'a>>>,
    done: &mut Vec<LeafDone<'a>>,
)
    requires lent { LentAre arena.old.places (lease_ids (present works.items)) }
    requires empty { done.old.items ≡ [] }
    requires room { vec_len works ≤ vec_capacity done.old }
    ensures done { done.new.items ≡ map done_of (present works.entry.items) }
    ensures turned { Turns (map_of arena.old.places) (map_of arena.new.places) []
        (map lease_cell (present works.entry.items)) }
    ensures none_lent { NoneLent arena.new.places }
    ensures begun { arena.new.begun ≡ arena.old.begun }
    ensures moved { arena.new.moved ≡ arena.old.moved }
{
    // A `for` would drop what it leaves, and a lease can't be dropped. So the works are taken one by one.
    let mut left = works.into_iter();
    while let Some(item) = left.next() {
        if let Some(work) = item {
            done.push_reserved(give_back(arena, work));
        }
    }
    left.destroy_empty();
}
