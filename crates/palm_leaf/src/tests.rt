// Parts resolved over the rows of one leaf, and the leaves that many rows are cut into.
ghost use Rattle.std.specs.Prelude.{◌≡◌, IfOk};
ghost use Rattle.std.specs.List.{AllByRecursion};
ghost use Rattle.palm_leaf.specs.Routed.{HasKey};
ghost use Rattle.palm_leaf.specs.Worked.{IsPlan};

use crate::leaf_work::{LeafPlan, cut_later, resolve_parts};
use crate::room::plan;
use palm_base::{Amount, Digits, LEAST_LEAF_ROWS, Limit, MOST_LEAF_ROWS, Row};
use palm_node::{Leaf, Node, NodeId, Path, pieces};
use palm_route::{Ask, Group, Part, PartList};
use std::alloc::Global;
use std::process::Abort;
use std::test::Fail;

// The prefixes of more rows than two leaves hold, in order.
const PREFIXES: [&str; 2 * MOST_LEAF_ROWS + 1] = [
    "10", "11", "12", "13", "14", "15", "16", "17", "18", "19", "20", "21", "22", "23", "24", "25",
    "26", "27", "28", "29", "30", "31", "32", "33", "34", "35", "36", "37", "38", "39", "40", "41",
    "42",
];

fn digits(rt: &impl Abort, text: &str) -> Digits {
    Digits::read(text.as_bytes()).expect(rt, "a prefix")
}

fn amount(rt: &impl Abort, value: u64) -> Amount {
    Amount::new(value).expect(rt, "a rate")
}

// A part by the key of a prefix.
fn part(rt: &impl Abort, prefix: &str, ask: Ask) -> Part
    ensures { HasKey result }
{
    let key = digits(rt, prefix).key();
    Part {
        entry: 0,
        number: 0,
        key,
        ask,
    }
}

// A part that lists so many rows at most, from one prefix to another.
fn listing(rt: &impl Abort, from: &str, to: &str, limit: u32) -> Part
    ensures { HasKey result }
{
    let ask = Ask::List {
        from: digits(rt, from),
        to: digits(rt, to),
        limit: Limit::new(limit).expect(rt, "a limit"),
    };
    part(rt, from, ask)
}

// The group of a leaf with these parts.
fn group_of(parts: PartList) -> Group
    ensures { result.parts ≡ parts }
{
    Group {
        leaf: NodeId { place: 0 },
        path: Path::new(),
        low: 0,
        parts,
    }
}

// The plan for a group's leaf, which is empty.
fn plan_of<'a>(alloc: Global, group: &'a Group) -> Result<LeafPlan<'a>, Fail>
    requires { AllByRecursion HasKey group.now.parts }
    ensures plan { IfOk result (λ plan. IsPlan 0 plan) }
{
    Ok(plan(alloc, group, 0, LEAST_LEAF_ROWS)?)
}

// The part at a place had this rate before it.
fn assert_rate(rt: &impl Abort, plan: &LeafPlan<'_>, place: usize, rate: Option<u64>) {
    assert!(rt; place < plan.asked.len());
    let told = plan.asked[place].rate.map(|rate| rate.get());
    assert!(rt; told == rate, "the part {place}");
}

#[test]
fn resolves_parts_in_order(rt: HostRuntime) -> Result<(), Fail> {
    let mut parts = PartList::new(rt.alloc());
    parts.push(part(&rt, "44", Ask::Set(amount(&rt, 5))))?;
    parts.push(part(&rt, "44", Ask::Look))?;
    parts.push(part(&rt, "44", Ask::Set(amount(&rt, 6))))?;
    parts.push(part(&rt, "44", Ask::Del))?;
    parts.push(part(&rt, "44", Ask::Look))?;
    parts.push(part(&rt, "45", Ask::Set(amount(&rt, 7))))?;
    parts.push(listing(&rt, "4", "9", 10))?;
    let group = group_of(parts);
    let mut plan = plan_of(rt.alloc(), &group)?;
    resolve_parts(&Node::Leaf(Leaf::from_rows(&[])), &mut plan);
    let rates = [None, Some(5), Some(5), Some(6), None, None];
    for (place, rate) in rates.iter().enumerate() {
        assert_rate(&rt, &plan, place, *rate);
    }
    assert!(rt; plan.asked.len() == 7);
    assert_eq!(rt; plan.asked[6].found.len(), 1);
    assert_eq!(rt; plan.rows.len(), 1);
    Ok(())
}

// A Set for each of the prefixes, from the last to the first.
fn sets(rt: &impl Abort, alloc: Global, prefixes: &[&str]) -> Result<PartList, Fail>
    ensures { IfOk result (λ parts. AllByRecursion HasKey parts) }
{
    let mut parts = PartList::new(alloc);
    for prefix in prefixes.iter().rev() {
        parts.push(part(rt, prefix, Ask::Set(amount(rt, 1))))?;
    }
    Ok(parts)
}

#[test]
fn cuts_many_rows_in_three(rt: HostRuntime) -> Result<(), Fail> {
    let group = group_of(sets(&rt, rt.alloc(), &PREFIXES)?);
    let mut plan = plan_of(rt.alloc(), &group)?;
    resolve_parts(&Node::Leaf(Leaf::from_rows(&[])), &mut plan);
    assert!(rt; plan.rows.len() == PREFIXES.len());
    let mut later = Vec::with_capacity(rt.alloc(), pieces(MOST_LEAF_ROWS, plan.rows.len()))?;
    cut_later(&plan.rows, &mut later);
    assert!(rt; later.len() == 2);
    for (leaf, first) in later.iter().zip(["21", "32"]) {
        assert_eq!(rt; leaf.leaf.len(), 11);
        assert_eq!(rt; leaf.low, digits(&rt, first).key(), "{first}");
    }
    Ok(())
}

// The rows are those of these prefixes, in their order.
fn assert_prefixes(rt: &impl Abort, rows: &[Row], prefixes: &[&str]) {
    assert_eq!(rt; rows.len(), prefixes.len());
    for (row, prefix) in rows.iter().zip(prefixes) {
        assert_eq!(rt; row.prefix.key(), digits(rt, prefix).key(), "{prefix}");
    }
}

#[test]
fn lists_rows_from_the_first_key_on(rt: HostRuntime) -> Result<(), Fail> {
    let mut parts = sets(&rt, rt.alloc(), &PREFIXES[..8])?;
    parts.push(listing(&rt, "13", "15", 10))?;
    parts.push(listing(&rt, "135", "9", 2))?;
    parts.push(listing(&rt, "0", "105", 10))?;
    parts.push(listing(&rt, "18", "9", 10))?;
    parts.push(listing(&rt, "16", "12", 10))?;
    let group = group_of(parts);
    let mut plan = plan_of(rt.alloc(), &group)?;
    resolve_parts(&Node::Leaf(Leaf::from_rows(&[])), &mut plan);
    let lists: [&[&str]; 5] = [&["13", "14", "15"], &["14", "15"], &["10"], &[], &[]];
    assert!(rt; plan.asked.len() == 8 + lists.len());
    for (asked, prefixes) in plan.asked[8..].iter().zip(lists) {
        assert_prefixes(&rt, &asked.found, prefixes);
    }
    Ok(())
}
