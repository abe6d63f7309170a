// Batches on an arena that are kept and taken back, the ids that they leave free, and nodes that are lent twice.
ghost use Rattle.std.specs.Prelude.{◌≡◌, ◌<◌, None, IsSome, IfOk};
ghost use Rattle.palm_arena.specs.ArenaState.{IsHeld, NoneLent};

use super::*;
use palm_base::{Amount, Digits, NoMemory, Row, Steps};
use palm_node::{Leaf, Node, NodeId};
use std::alloc::Global;
use std::marker::Brand;
use std::process::Abort;
use std::sync::ledger::{Blank, Ledger};
use std::test::Fail;

fn row(rt: &impl Abort, prefix: &str, rate: u64) -> Row {
    Row {
        prefix: Digits::read(prefix.as_bytes()).expect(rt, "a prefix"),
        rate: Amount::new(rate).expect(rt, "a rate"),
    }
}

// The leaf of one row.
fn leaf(rt: &impl Abort, prefix: &str, rate: u64) -> Node {
    let row = row(rt, prefix, rate);
    Node::Leaf(Leaf::from_rows(&[row]))
}

// A leaf of this one row is what stands at the id.
fn assert_leaf(rt: &impl Abort, arena: &Arena, id: NodeId, prefix: &str, rate: u64) {
    assert!(rt; arena.is_held(id), "{prefix} is held");
    assert_row(rt, arena.read(id), prefix, rate);
}

fn assert_row(rt: &impl Abort, node: &Node, prefix: &str, rate: u64) {
    assert!(rt; matches!(node, Node::Leaf(_)), "{prefix} is in a leaf");
    if let Node::Leaf(leaf) = node {
        assert_eq!(rt; leaf.len(), 1);
        assert!(rt; leaf.row(0) == row(rt, prefix, rate), "{prefix} at {rate}");
    }
}

// Takes a node, in a batch that has lent nothing.
fn add<L: Ledger>(arena: &mut Arena, node: Node, steps: &mut Steps<L>) -> Result<NodeId, NoMemory>
    requires under_way { IsSome arena.old.begun }
    requires none_lent { NoneLent arena.old.places }
    ensures begun { arena.new.begun ≡ arena.old.begun }
    ensures none_lent { NoneLent arena.new.places }
{
    arena.take(node, steps)
}

// Puts another node at an id, by its lease.
fn put<L: Ledger>(
    rt: &impl Abort,
    arena: &mut Arena,
    id: NodeId,
    node: Node,
    steps: &mut Steps<L>,
) -> Result<(), NoMemory>
    requires under_way { IsSome arena.old.begun }
    requires none_lent { NoneLent arena.old.places }
    requires held { IsHeld arena.old.places id }
    ensures begun { arena.new.begun ≡ arena.old.begun }
    ensures none_lent { NoneLent arena.new.places }
{
    let mut lease = arena.lend(id, steps)?;
    assert!(rt; lease.id() == id);
    assert!(rt; !arena.is_held(id), "lent");
    *lease.node_mut() = node;
    assert!(rt; matches!(lease.node(), Node::Leaf(_)));
    arena.give_back(lease);
    Ok(())
}

// Drops the node at an id.
fn remove(arena: &mut Arena, id: NodeId) -> Result<(), NoMemory>
    requires under_way { IsSome arena.old.begun }
    requires none_lent { NoneLent arena.old.places }
    requires held { IsHeld arena.old.places id }
    ensures begun { arena.new.begun ≡ arena.old.begun }
    ensures none_lent { NoneLent arena.new.places }
{
    arena.drop_node(id)
}

// An arena with the leaves of 1 at 10 and 2 at 20, which a batch of its own took.
fn with_two<L: Ledger>(
    rt: &impl Abort,
    alloc: Global,
    steps: &mut Steps<L>,
) -> Result<(Arena, NodeId, NodeId), NoMemory>
    ensures idle { IfOk result (λ made. made.0.begun ≡ None) }
    ensures none_lent { IfOk result (λ made. NoneLent made.0.places) }
{
    let mut arena = Arena::new(alloc)?;
    arena.begin();
    let first = add(&mut arena, leaf(rt, "1", 10), steps)?;
    let second = add(&mut arena, leaf(rt, "2", 20), steps)?;
    arena.commit();
    Ok((arena, first, second))
}

// A batch under way that sets the first leaf, drops the second and takes the leaf of 3 at 30, whose id it answers.
fn change<L: Ledger>(
    rt: &impl Abort,
    arena: &mut Arena,
    first: NodeId,
    second: NodeId,
    steps: &mut Steps<L>,
) -> Result<NodeId, NoMemory>
    requires under_way { IsSome arena.old.begun }
    requires none_lent { NoneLent arena.old.places }
    ensures begun { arena.new.begun ≡ arena.old.begun }
    ensures none_lent { NoneLent arena.new.places }
{
    assert!(rt; arena.is_held(first));
    put(rt, arena, first, leaf(rt, "1", 11), steps)?;
    assert!(rt; arena.is_held(second));
    remove(arena, second)?;
    let third = add(arena, leaf(rt, "3", 30), steps)?;
    assert!(rt; third != first && third != second, "an id of its own");
    assert_leaf(rt, arena, first, "1", 11);
    assert!(rt; !arena.is_held(second), "dropped");
    assert_leaf(rt, arena, third, "3", 30);
    Ok(third)
}

// A batch of its own that takes the leaf of 4 at 40, at the one id that is free.
fn take_fourth<L: Ledger>(
    rt: &impl Abort,
    arena: &mut Arena,
    free: NodeId,
    steps: &mut Steps<L>,
) -> Result<(), NoMemory>
    requires idle { arena.old.begun ≡ None }
    requires none_lent { NoneLent arena.old.places }
{
    arena.begin();
    let fourth = add(arena, leaf(rt, "4", 40), steps)?;
    arena.commit();
    assert!(rt; fourth == free, "used again");
    assert_leaf(rt, arena, fourth, "4", 40);
    Ok(())
}

fn roll_back<L: Ledger>(rt: &impl Abort, alloc: Global, blank: Blank) -> Result<(), NoMemory>
    requires blank_name { blank.name ≡ L.name }
    requires blank_parts { blank.parts ≡ L.parts }
    requires blank { 0 < blank.parts }
{
    let mut steps = Steps::<L>::new(blank);
    let (mut arena, first, second) = with_two(rt, alloc, &mut steps)?;
    arena.begin();
    let third = change(rt, &mut arena, first, second, &mut steps)?;
    arena.rollback();
    assert_leaf(rt, &arena, first, "1", 10);
    assert_leaf(rt, &arena, second, "2", 20);
    assert!(rt; !arena.is_held(third), "taken back");
    Ok(())
}

fn keep<L: Ledger>(rt: &impl Abort, alloc: Global, blank: Blank) -> Result<(), NoMemory>
    requires blank_name { blank.name ≡ L.name }
    requires blank_parts { blank.parts ≡ L.parts }
    requires blank { 0 < blank.parts }
{
    let mut steps = Steps::<L>::new(blank);
    let (mut arena, first, second) = with_two(rt, alloc, &mut steps)?;
    arena.begin();
    let third = change(rt, &mut arena, first, second, &mut steps)?;
    arena.commit();
    assert_leaf(rt, &arena, first, "1", 11);
    assert!(rt; !arena.is_held(second), "dropped");
    assert_leaf(rt, &arena, third, "3", 30);
    // the id that the last batch dropped is used again
    take_fourth(rt, &mut arena, second, &mut steps)?;
    assert_leaf(rt, &arena, first, "1", 11);
    assert_leaf(rt, &arena, third, "3", 30);
    Ok(())
}

fn use_again<L: Ledger>(rt: &impl Abort, alloc: Global, blank: Blank) -> Result<(), NoMemory>
    requires blank_name { blank.name ≡ L.name }
    requires blank_parts { blank.parts ≡ L.parts }
    requires blank { 0 < blank.parts }
{
    let mut steps = Steps::<L>::new(blank);
    let (mut arena, first, second) = with_two(rt, alloc, &mut steps)?;
    arena.begin();
    let third = change(rt, &mut arena, first, second, &mut steps)?;
    arena.rollback();
    // the id that the batch took back is not live, and the next batch takes its place again, at the end
    take_fourth(rt, &mut arena, third, &mut steps)?;
    assert_leaf(rt, &arena, first, "1", 10);
    assert_leaf(rt, &arena, second, "2", 20);
    Ok(())
}

fn offer_again<L: Ledger>(rt: &impl Abort, alloc: Global, blank: Blank) -> Result<(), NoMemory>
    requires blank_name { blank.name ≡ L.name }
    requires blank_parts { blank.parts ≡ L.parts }
    requires blank { 0 < blank.parts }
{
    let mut steps = Steps::<L>::new(blank);
    let (mut arena, first, second) = with_two(rt, alloc, &mut steps)?;
    arena.begin();
    assert!(rt; arena.is_held(second));
    remove(&mut arena, second)?;
    arena.commit();
    arena.begin();
    let third = add(&mut arena, leaf(rt, "3", 30), &mut steps)?;
    assert!(rt; third == second, "the one that is free");
    arena.rollback();
    assert!(rt; !arena.is_held(second), "taken back");
    // the free id that the batch had taken is free once more
    take_fourth(rt, &mut arena, second, &mut steps)?;
    assert_leaf(rt, &arena, first, "1", 10);
    Ok(())
}

fn lend_twice<L: Ledger>(rt: &impl Abort, alloc: Global, blank: Blank) -> Result<(), NoMemory>
    requires blank_name { blank.name ≡ L.name }
    requires blank_parts { blank.parts ≡ L.parts }
    requires blank { 0 < blank.parts }
{
    let mut steps = Steps::<L>::new(blank);
    let (mut arena, first, second) = with_two(rt, alloc, &mut steps)?;
    arena.begin();
    assert!(rt; arena.is_held(first));
    put(rt, &mut arena, first, leaf(rt, "1", 11), &mut steps)?;
    assert!(rt; arena.is_held(first));
    put(rt, &mut arena, first, leaf(rt, "1", 12), &mut steps)?;
    assert_leaf(rt, &arena, first, "1", 12);
    arena.rollback();
    assert_leaf(rt, &arena, first, "1", 10);
    assert_leaf(rt, &arena, second, "2", 20);
    Ok(())
}

#[test]
fn takes_a_batch_back(rt: HostRuntime) -> Result<(), Fail> {
    roll_back::<Brand>(&rt, rt.alloc(), Blank::new(1))?;
    Ok(())
}

#[test]
fn keeps_a_batch(rt: HostRuntime) -> Result<(), Fail> {
    keep::<Brand>(&rt, rt.alloc(), Blank::new(1))?;
    Ok(())
}

#[test]
fn uses_ids_again(rt: HostRuntime) -> Result<(), Fail> {
    use_again::<Brand>(&rt, rt.alloc(), Blank::new(1))?;
    Ok(())
}

#[test]
fn offers_a_free_id_again_after_a_rollback(rt: HostRuntime) -> Result<(), Fail> {
    offer_again::<Brand>(&rt, rt.alloc(), Blank::new(1))?;
    Ok(())
}

#[test]
fn saves_a_node_once(rt: HostRuntime) -> Result<(), Fail> {
    lend_twice::<Brand>(&rt, rt.alloc(), Blank::new(1))?;
    Ok(())
}
