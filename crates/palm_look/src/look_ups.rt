// The look-ups of a batch, answered on the tree in shares, by workers beside each other.
ghost use Rattle.std.specs.Prelude.{◌≡◌, ◌≤◌, List, map, All, IfOk, OnOk, IsSorted};
ghost use Rattle.std.specs.List.{AllZip, AllByRecursion, flat_map};
ghost use Rattle.std.specs.Ordering.{nat_cmp};
ghost use Rattle.palm_share.specs.Jobs.{Holds};
ghost use Rattle.palm_share.specs.declared.share.TheConstants.{MOST_WORKERS};
ghost use Rattle.palm_base.specs.History.{replies_to};
ghost use Rattle.palm_base.specs.LookUps.{looked};
ghost use Rattle.palm_base.specs.Tree.{rows_of};
ghost use Rattle.palm_base.specs.declared.row.Row.{Row};
ghost use Rattle.palm_tree.specs.TreeValue.{tree_in};
ghost use Rattle.palm_look.specs.Unmet.{IsKnown, IsKnownUnlessMet, IsJudged};
ghost use Rattle.palm_look.specs.Shares.{entries_of, answers_of, IsDone};

use crate::edit_keys::edit_keys;
use crate::met::is_met;
use palm_base::{Entry, NoMemory, Reply};
use palm_share::{Gate, Job, MOST_WORKERS, cut, each_mut};
use palm_tree::Tree;
use std::alloc::Global;
use std::thread::Threads;

/// How many calls a worker beyond the second is to have at least: a thread costs as much as some thousand look-ups.
const LEAST_CALLS: usize = 2_048;

// Takes an answer back where an edit at one of the sorted keys could change it.
fn take_back(keys: &[u64], entry: &Entry, answer: &mut Option<Reply>)
    requires sorted { IsSorted nat_cmp keys.now }
    ensures { (rows : List Row) → answer.old ≡ looked rows entry.now
        → IsJudged rows keys.now entry.now answer.new }
{
    let Some(reply) = answer else {
        return;
    };
    if is_met(keys, &entry.call, reply) {
        *answer = None;
    }
}

// The answers to a share's look-ups on the tree, but for those that an edit at one of the sorted keys could change.
fn answer_share(
    tree: &Tree,
    keys: &[u64],
    entries: &[Entry],
) -> Result<Vec<Option<Reply>>, NoMemory>
    requires sorted { IsSorted nat_cmp keys.now }
    ensures { IfOk result (λ answers.
        AllZip (IsJudged (rows_of (tree_in tree.now)) keys.now) entries.now answers.items) }
{
    let mut answers = tree.answer_look_ups(entries)?;
    for i in 0..entries.len() {
        take_back(keys, &entries[i], &mut answers[i]);
    }
    Ok(answers)
}

// A share of a batch, whose look-ups one worker answers.
#[derive(Drop)]
struct LookWork<'a> {
    tree: &'a Tree,
    keys: &'a [u64],
    entries: &'a [Entry],
    answers: Result<Vec<Option<Reply>>, NoMemory>,
}

impl<'a> Job for LookWork<'a> {
    ghost ready = { λ work. IsSorted nat_cmp work.keys.now };

    ghost ran = { λ before after.
        IfOk after.answers (λ answers.
        AllZip (IsJudged (rows_of (tree_in before.tree.now)) before.keys.now) before.entries.now
        answers.items) };

    fn run(&mut self) {
        self.answers = answer_share(self.tree, self.keys, self.entries);
    }
}

// In how many shares calls are answered: in two where there are two calls and workers, and in one more for each so
// many calls.
fn share_count(calls: usize, workers: u32) -> usize
    requires { 1 ≤ workers }
    ensures { 1 ≤ result }
{
    (workers as usize).min(calls.min(2).max(1 + calls / LEAST_CALLS))
}

// The work on each share of a batch.
fn works_of<'a>(
    alloc: Global,
    tree: &'a Tree,
    keys: &'a [u64],
    shares: Vec<&'a [Entry]>,
) -> Result<Vec<Option<LookWork<'a>>>, NoMemory>
    ensures entries { IfOk result (λ works.
        map entries_of works.items ≡ map (λ share. share.now) shares.entry.items) }
    ensures begin { IfOk result (λ works.
        AllByRecursion (Holds (λ work. (work.tree.now ≡ tree.now) × (work.keys.now ≡ keys.now)))
        works.items) }
{
    let mut works = Vec::with_capacity(alloc, shares.len())?;
    for entries in shares {
        works.push(Some(LookWork {
            tree,
            keys,
            entries,
            answers: Err(NoMemory),
        }))?;
    }
    Ok(works)
}

// The answers of all shares, in one list.
fn append_all(
    alloc: Global,
    works: Vec<Option<LookWork<'_>>>,
) -> Result<Vec<Option<Reply>>, NoMemory>
    requires there { All (Holds (λ _. Unit {0})) works.items }
    ensures answers { IfOk result (λ answers. answers.items ≡ flat_map answers_of works.entry.items) }
    ensures done { OnOk result (AllByRecursion IsDone works.entry.items) }
{
    let mut answers = Vec::new(alloc);
    for work in works {
        let Some(work) = work else { unreachable!() };
        answers.append(&mut work.answers?)?;
    }
    Ok(answers)
}

// The answers of all shares, in their order. Those of a single share stay where they are.
fn join(alloc: Global, mut works: Vec<Option<LookWork<'_>>>) -> Result<Vec<Option<Reply>>, NoMemory>
    requires there { All (Holds (λ _. Unit {0})) works.items }
    ensures answers { IfOk result (λ answers. answers.items ≡ flat_map answers_of works.entry.items) }
    ensures done { OnOk result (AllByRecursion IsDone works.entry.items) }
{
    if works.len() == 1 {
        let Some(Some(work)) = works.pop() else {
            unreachable!()
        };
        return work.answers;
    }
    append_all(alloc, works)
}

/// Answers the look-ups of a batch that no edit of the batch meets, each on the tree as it stands before the batch,
/// by at most `workers` workers beside each other; before each share its worker passes the gate. Nothing is said of
/// the reply to an edit, nor of that to a look-up which an edit of the batch could change: a Get by an edit of its
/// prefix, a Rate by one of a front of its number with as many digits as its row or more, and a List by one in its
/// range, up to the row at which it reaches its limit.
///
/// `NoMemory` where room was refused.
pub fn answer_unmet<R: Threads + Sync, G: Gate + Sync>(
    rt: &R,
    tree: &Tree,
    batch: &[Entry],
    workers: u32,
    gate: &G,
) -> Result<Vec<Option<Reply>>, NoMemory>
    requires some { 1 ≤ workers }
    requires few { workers ≤ MOST_WORKERS }
    ensures known { IfOk result (λ answers.
        AllZip IsKnown answers.items (replies_to (rows_of (tree_in tree.now)) batch.now)) }
    ensures unmet { IfOk result (λ answers.
        AllZip (IsKnownUnlessMet (rows_of (tree_in tree.now)) batch.now) answers.items batch.now) }
{
    let alloc = tree.arena.allocator();
    let keys = edit_keys(alloc, batch)?;
    let shares = cut(alloc, batch, share_count(batch.len(), workers))?;
    let mut works = works_of(alloc, tree, &keys, shares)?;
    each_mut(rt, alloc, works.as_mut_slice(), workers, gate);
    join(alloc, works)
}
