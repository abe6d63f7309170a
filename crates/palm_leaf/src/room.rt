// Room for all that may come of a leaf, made before the leaves are worked on, so that the work can't fail.
ghost use Rattle.std.specs.Prelude.{◌≡◌, ◌<◌, true, false, ◌≤◌, ◌+◌, ◌==◌};
ghost use Rattle.std.specs.Prelude.{if◌then◌else◌, map, IfOk, vec_capacity};
ghost use Rattle.std.specs.List.{AllByRecursion};
ghost use Rattle.palm_base.specs.declared.bounds.TheConstants.{MOST_LEAF_ROWS};
ghost use Rattle.palm_leaf.specs.Asked.{all_keep, set_count, part_of, HasRoom};
ghost use Rattle.palm_leaf.specs.Routed.{HasKey, written_low};
ghost use Rattle.palm_leaf.specs.Worked.{IsPlan, TakesAtMost, parts_of_plan};

use crate::leaf_work::LeafPlan;
use crate::rows::{Asked, all_keep};
use palm_base::{MOST_LEAF_ROWS, NoMemory};
use palm_node::{Path, pieces};
use palm_route::{Ask, Group, Part};
use std::alloc::Global;

// A part with room for what it may find among `most` rows.
fn ask(alloc: Global, part: &Part, most: usize) -> Result<Asked, NoMemory>
    ensures part { IfOk result (λ asked. asked.part ≡ part.now) }
    ensures room { IfOk result (λ asked. HasRoom most asked) }
    ensures no_more { IfOk result (λ asked. vec_capacity asked.found ≤ most) }
{
    let found = match &part.ask {
        Ask::List { limit, .. } => Vec::with_capacity(alloc, (limit.get() as usize).min(most))?,
        Ask::Set(_) | Ask::Del | Ask::Look => Vec::new(alloc),
    };
    Ok(Asked {
        part: part.copy(),
        rate: None,
        found,
    })
}

// The parts of a leaf, each with room for what it may find among `most` rows.
fn ask_all(alloc: Global, parts: &[Part], most: usize) -> Result<Vec<Asked>, NoMemory>
    ensures parts { IfOk result (λ asked. map part_of asked.items ≡ parts.now) }
    ensures room { IfOk result (λ asked. AllByRecursion (HasRoom most) asked.items) }
    ensures no_more { IfOk result (λ asked.
        AllByRecursion (λ one. vec_capacity one.found ≤ most) asked.items) }
{
    let mut all = Vec::with_capacity(alloc, parts.len())?;
    for part in parts {
        all.push_reserved(ask(alloc, part, most)?);
    }
    Ok(all)
}

// The low that a leaf's parent has written for it: 0 for the root and for a first child.
fn parent_low(path: &Path, low: u64) -> u64
    ensures { result ≡ written_low path.now low }
{
    let steps = path.len();
    if steps == 0 {
        return 0;
    }
    let (_, child) = path.get(steps - 1);
    if child == 0 { 0 } else { low }
}

// How many of the parts are Sets.
fn count_sets(parts: &[Part]) -> usize
    ensures { result ≡ set_count parts.now }
{
    parts
        .iter()
        .filter(|part| matches!(&part.ask, Ask::Set(_)))
        .count()
}

// How many rows a leaf of `held` rows may have, at most, while these parts are resolved: no part but a Set adds one.
fn most_rows(held: usize, parts: &[Part]) -> Result<usize, NoMemory>
    ensures { IfOk result (λ most. most ≡ held + set_count parts.now) }
{
    match held.checked_add(count_sets(parts)) {
        Some(most) => Ok(most),
        None => Err(NoMemory),
    }
}

// Whether a leaf of `held` rows, which may come to `most` of them, stands on with all of them where they stand.
fn fits(asked: &[Asked], held: usize, least: usize, most: usize) -> bool
    ensures { result ≡ true → (all_keep (map part_of asked.now) ≡ true) × (0 < held) × (least ≤ held)
        × (most ≤ MOST_LEAF_ROWS) }
{
    0 < held && least <= held && most <= MOST_LEAF_ROWS && all_keep(asked)
}

// For how many rows there must be room: for none where they aren't listed.
fn row_room(fits: bool, most: usize) -> usize
    ensures room { fits ≡ false → result ≡ most }
    ensures no_more { result ≤ most }
{
    if fits { 0 } else { most }
}

/// The plan for a group's leaf, which has `held` rows. It is removed where it is left with some rows, but fewer
/// than `least`. Only a Set can add a row, so there is room by `held` and the number of Sets. `NoMemory` where room
/// was refused.
pub fn plan<'a>(
    alloc: Global,
    group: &'a Group,
    held: usize,
    least: usize,
) -> Result<LeafPlan<'a>, NoMemory>
    requires { AllByRecursion HasKey group.now.parts }
    ensures plan { IfOk result (λ plan. IsPlan held plan) }
    ensures no_more { IfOk result (λ plan. TakesAtMost (held + set_count group.now.parts) plan) }
    ensures parts { IfOk result (λ plan. parts_of_plan plan ≡ group.now.parts) }
    ensures path { IfOk result (λ plan. plan.path.now ≡ group.now.path) }
    ensures low { IfOk result (λ plan. plan.low ≡ written_low group.now.path group.now.low) }
    ensures least { IfOk result (λ plan. plan.least ≡ least) }
{
    let parts = group.parts.as_slice();
    let most = most_rows(held, parts)?;
    let low = parent_low(&group.path, group.low);
    let asked = ask_all(alloc, parts, most)?;
    let fits = fits(&asked, held, least, most);
    let rows = Vec::with_capacity(alloc, row_room(fits, most))?;
    let later = Vec::with_capacity(alloc, pieces(MOST_LEAF_ROWS, most).saturating_sub(1))?;
    Ok(LeafPlan {
        path: &group.path,
        low,
        least,
        asked,
        fits,
        rows,
        later,
        kept: false,
    })
}
