// Parts put together by leaf.
ghost use Rattle.std.specs.Prelude.{◌≡◌, ◌<◌, List, length, map, ◌≤◌, IfOk, OnOk, IsPermutation};
ghost use Rattle.std.specs.Prelude.{IsSortedByKey};
ghost use Rattle.std.specs.List.{AllByRecursion};
ghost use Rattle.std.specs.List.Sorted.{IsStableByKey};
ghost use Rattle.std.specs.Ordering.{nat_cmp};
ghost use Rattle.palm_arena.specs.Leaves.{LeafPlace};
ghost use Rattle.palm_route.specs.Groups.{IsRoutedTo, LowsRise, groups_of};
ghost use Rattle.palm_route.specs.Marks.{marks_from, marked};
ghost use Rattle.palm_route.specs.declared.part.Routed.{Routed};
ghost use Rattle.palm_route.specs.Runs.{group_with, with_routed, runs_of};

use crate::part::{Group, Groups, PartList, Routed, RoutedList};
use palm_base::NoMemory;
use rayon::prelude::*;
use std::alloc::{AllocError, Global};
use std::thread::Threads;

// From so many marks on several threads sort them.
const MANY_MARKS: usize = 16_384;

// Where a part stands, and where the range of its leaf begins. Marks are sorted in place of parts, which are many
// times as wide.
#[derive(Clone, Copy, Drop)]
struct Mark {
    low: u64,
    place: usize,
}

// The marks of parts, in the order of the parts.
fn marks_of(alloc: Global, routed: &[Routed]) -> Result<Vec<Mark>, NoMemory>
    ensures { IfOk result (λ marks. marks.items ≡ marks_from 0 routed.now) }
{
    let mut marks = Vec::with_capacity(alloc, routed.len())?;
    for (place, one) in routed.iter().enumerate() {
        marks.push_reserved(Mark {
            low: one.low,
            place,
        });
    }
    Ok(marks)
}

// Sorts marks by leaf in this thread, and keeps those of a leaf in their order.
fn sort_few(alloc: Global, marks: &mut [Mark]) -> Result<(), AllocError>
    ensures len { length marks.new ≡ length marks.old }
    ensures permutation { IsPermutation marks.old marks.new }
    ensures sorted { OnOk result (IsSortedByKey (λ mark. mark.low) nat_cmp marks.new) }
    ensures stable { IsStableByKey (λ mark. mark.low) nat_cmp marks.old marks.new }
{
    marks.sort_by_key(alloc, |mark| mark.low)
}

// The same, by several threads.
fn sort_many<R: Threads + Sync>(rt: &R, alloc: Global, marks: &mut [Mark]) -> Result<(), AllocError>
    ensures len { length marks.new ≡ length marks.old }
    ensures permutation { IsPermutation marks.old marks.new }
    ensures sorted { OnOk result (IsSortedByKey (λ mark. mark.low) nat_cmp marks.new) }
    ensures stable { IsStableByKey (λ mark. mark.low) nat_cmp marks.old marks.new }
{
    par_sort_by_key(rt, alloc, marks, |mark| mark.low)
}

// The same. The system's threads are asked only where there are several workers and many marks: asking how many
// there may be takes longer than a sort of a few.
fn sort<R: Threads + Sync>(
    rt: &R,
    alloc: Global,
    marks: &mut [Mark],
    workers: u32,
) -> Result<(), AllocError>
    ensures len { length marks.new ≡ length marks.old }
    ensures permutation { IsPermutation marks.old marks.new }
    ensures sorted { OnOk result (IsSortedByKey (λ mark. mark.low) nat_cmp marks.new) }
    ensures stable { IsStableByKey (λ mark. mark.low) nat_cmp marks.old marks.new }
{
    if workers == 1 || marks.len() < MANY_MARKS {
        return sort_few(alloc, marks);
    }
    sort_many(rt, alloc, marks)
}

// How many marks, from the first on, are of the first one's leaf.
fn run_length(marks: &[Mark]) -> usize
    ensures { result ≤ length marks.now }
{
    for (i, mark) in marks.iter().enumerate() {
        if mark.low != marks[0].low {
            return i;
        }
    }
    marks.len()
}

// How many runs of marks there are, each of one leaf.
fn run_count(marks: &[Mark]) -> usize
    ensures { result ≤ length marks.now }
{
    let mut count = 0;
    for i in 0..marks.len() {
        if i == 0 || marks[i].low != marks[i - 1].low {
            count += 1;
        }
    }
    count
}

// A group of one part, with room for as many as there are marks of its leaf.
fn group_of(alloc: Global, routed: &Routed, marks: &[Mark]) -> Result<Group, NoMemory>
    ensures { IfOk result (λ group. group ≡ group_with routed.now) }
{
    let mut parts = Vec::with_capacity(alloc, run_length(marks))?;
    parts.push(routed.part.copy())?;
    Ok(Group {
        leaf: routed.leaf,
        path: routed.path.copy(),
        low: routed.low,
        parts: PartList::from_vec(parts),
    })
}

// Puts a part to the last group where that is its leaf's, and else in a group of its own. The marks are the part's
// own and those behind it.
fn add(
    alloc: Global,
    groups: &mut Vec<Group>,
    routed: &Routed,
    marks: &[Mark],
) -> Result<(), NoMemory>
    ensures ok { OnOk result (groups.new.items ≡ with_routed groups.old.items routed.now) }
{
    if let Some(last) = groups.last_mut() {
        if last.low == routed.low {
            last.parts.push(routed.part.copy())?;
            return Ok(());
        }
    }
    groups.push(group_of(alloc, routed, marks)?)?;
    Ok(())
}

// Puts parts together in the order of these marks, which come leaf by leaf.
fn runs(alloc: Global, routed: &[Routed], marks: &[Mark]) -> Result<Groups, NoMemory>
    requires { AllByRecursion (λ mark. mark.place < length routed.now) marks.now }
    ensures { IfOk result (λ groups. groups ≡ runs_of (map (marked routed.now) marks.now)) }
{
    let mut groups = Vec::with_capacity(alloc, run_count(marks))?;
    for (i, mark) in marks.iter().enumerate() {
        add(alloc, &mut groups, &routed[mark.place], &marks[i..])?;
    }
    Ok(Groups::from_vec(groups))
}

/// Puts routed parts together by leaf. The groups stand in the order of the leaves, and the parts of a group in the
/// order in which they are given. `NoMemory` where room for them was refused.
///
/// Where there is one worker, or fewer than 16,384 parts, this thread sorts alone. Else rayon's threads sort. How
/// many they are follows from how many the system has, and not from `workers`.
pub fn group<R: Threads + Sync>(
    rt: &R,
    alloc: Global,
    routed: RoutedList,
    workers: u32,
) -> Result<Groups, NoMemory>
    ensures { IfOk result (λ groups.
        (places : List LeafPlace) → LowsRise places → AllByRecursion (IsRoutedTo places) routed
        → groups ≡ groups_of places (map (λ one. one.part) routed)) }
{
    let mut marks = marks_of(alloc, routed.as_slice())?;
    sort(rt, alloc, marks.as_mut_slice(), workers)?;
    runs(alloc, routed.as_slice(), marks.as_slice())
}
