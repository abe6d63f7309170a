// Leaves that were given back are settled: the later leaves of each are put into the arena, and one that isn't kept is
// dropped. Where memory is refused the batch is abandoned, so what was done so far stays as it is.
ghost use Rattle.std.specs.Prelude.{◌≡◌, ◌≤◌, ◌+◌, ◌++◌, ◌∷◌, [], List, length, map};
ghost use Rattle.std.specs.Prelude.{sum_by, Some, IsSome, IfOk, OnOk};
ghost use Rattle.palm_base.specs.declared.row.Row.{Row};
ghost use Rattle.palm_node.specs.declared.node.Node.TheVariants.{Leaf};
ghost use Rattle.palm_arena.specs.ArenaState.{node_at, NoneLent};
ghost use Rattle.palm_arena.specs.Cells.{Cell, Owns};
ghost use Rattle.palm_arena.specs.Reads.{map_of};
ghost use Rattle.palm_leaf.specs.Asked.{answered};
ghost use Rattle.palm_leaf.specs.Answers.{rows_at};
ghost use Rattle.palm_leaf.specs.Ends.{LeavesEnd};
ghost use Rattle.palm_leaf.specs.Settling.{AreTaken, EndsAs, EndsWith, end_of_done, done_cells, answers_of_done};
ghost use Rattle.palm_leaf.specs.Worked.{low_and_rows};

use crate::answer::{AnswerList, LeafAnswer, PartAnswer};
use crate::leaf_work::{LeafPlan, NewLeaf};
use crate::lending::LeafDone;
use crate::rows::Asked;
use palm_arena::Arena;
use palm_base::{NoMemory, Row, RowList, Steps};
use palm_node::{Change, ChangeList, Node, NodeId, Path, Piece, PieceList};
use palm_route::Ask;
use std::alloc::Global;
use std::sync::ledger::Ledger;

/// What comes of the leaves, as far as they are settled.
#[derive(Debug, Drop)]
pub struct Gathered {
    /// The answers to the parts, leaf by leaf.
    pub answers: AnswerList,
    /// What stands for each leaf.
    pub nodes: ChangeList,
    /// The rows of the removed leaves.
    pub loose: Vec<Row>,
}

// A part with the answer that it was given.
fn part_answer(asked: Asked) -> PartAnswer
    ensures { result ≡ answered asked }
{
    let Asked { part, rate, found } = asked;
    let answer = match &part.ask {
        Ask::Set(_) | Ask::Del | Ask::Look => LeafAnswer::Old(rate),
        Ask::List { .. } => LeafAnswer::Found(RowList::from_vec(found)),
    };
    PartAnswer { part, answer }
}

// Appends the answers to a leaf's parts.
fn append_answers(all: Vec<Asked>, answers: &mut AnswerList) -> Result<(), NoMemory>
    ensures { OnOk result (answers.new ≡ answers.old ++ map answered all.items) }
{
    for asked in all {
        answers.push(part_answer(asked))?;
    }
    Ok(())
}

// Puts new leaves into the arena, and lists them behind others.
fn take_later<L: Ledger>(
    arena: &mut Arena,
    later: Vec<NewLeaf>,
    pieces: &mut PieceList,
    steps: &mut Steps<L>,
) -> Result<(), NoMemory>
    requires under_way { IsSome arena.old.begun }
    requires none_lent { NoneLent arena.old.places }
    ensures taken { OnOk result
        (AreTaken (map_of arena.old.places) (map_of arena.new.places) pieces.old pieces.new
        later.items) }
    ensures begun { arena.new.begun ≡ arena.old.begun }
    ensures none_lent { NoneLent arena.new.places }
    ensures ticks { steps.new ≤ steps.old + length later.items }
    ensures moved { length arena.new.moved + steps.old ≤ length arena.old.moved + steps.new }
{
    for leaf in later {
        let NewLeaf { low, leaf } = leaf;
        let id = arena.take(Node::Leaf(leaf), steps)?;
        pieces.push(Piece { low, id })?;
    }
    Ok(())
}

// Settles a leaf that is kept, with the later leaves behind it.
fn settle_kept<L: Ledger>(
    alloc: Global,
    arena: &mut Arena,
    first: Piece,
    path: &Path,
    later: Vec<NewLeaf>,
    gathered: &mut Gathered,
    steps: &mut Steps<L>,
) -> Result<(), NoMemory>
    requires under_way { IsSome arena.old.begun }
    requires none_lent { NoneLent arena.old.places }
    requires leaf { (rows : List Row) × (node_at arena.old.places first.id ≡ Some (Leaf rows)) }
    ensures end { OnOk result
        (EndsAs (map_of arena.old.places) (map_of arena.new.places)
        (record {
          node = first.id;
          path = path.now;
          outcome = record {
            pieces = (first.low, rows_at (map_of arena.old.places) first.id)
                ∷ map low_and_rows later.items;
            loose = [];
          };
        })
        gathered.old gathered.new) }
    ensures begun { arena.new.begun ≡ arena.old.begun }
    ensures none_lent { NoneLent arena.new.places }
    ensures ticks { steps.new ≤ steps.old + length later.items }
    ensures moved { length arena.new.moved + steps.old ≤ length arena.old.moved + steps.new }
{
    let mut pieces = PieceList::new(alloc);
    pieces.push(first)?;
    take_later(arena, later, &mut pieces, steps)?;
    gathered.nodes.push(Change {
        node: first.id,
        path: path.copy(),
        pieces,
    })?;
    Ok(())
}

// Settles a leaf that isn't kept: it is dropped, and its rows are loose.
fn settle_removed(
    alloc: Global,
    arena: &mut Arena,
    id: NodeId,
    path: &Path,
    rows: &[Row],
    gathered: &mut Gathered,
) -> Result<(), NoMemory>
    requires under_way { IsSome arena.old.begun }
    requires none_lent { NoneLent arena.old.places }
    requires leaf { (left : List Row) × (node_at arena.old.places id ≡ Some (Leaf left)) }
    ensures end { OnOk result
        (EndsAs (map_of arena.old.places) (map_of arena.new.places)
        (record {
          node = id;
          path = path.now;
          outcome = record { pieces = []; loose = rows.now };
        })
        gathered.old gathered.new) }
    ensures begun { arena.new.begun ≡ arena.old.begun }
    ensures none_lent { NoneLent arena.new.places }
    ensures moved { arena.new.moved ≡ arena.old.moved }
{
    arena.drop_node(id)?;
    gathered.loose.extend_from_slice(rows)?;
    gathered.nodes.push(Change {
        node: id,
        path: path.copy(),
        pieces: PieceList::new(alloc),
    })?;
    Ok(())
}

// Settles one leaf.
fn settle<L: Ledger>(
    alloc: Global,
    arena: &mut Arena,
    done: LeafDone<'_>,
    gathered: &mut Gathered,
    steps: &mut Steps<L>,
) -> Result<(), NoMemory>
    requires under_way { IsSome arena.old.begun }
    requires none_lent { NoneLent arena.old.places }
    requires leaf { (rows : List Row) × (node_at arena.old.places done.id ≡ Some (Leaf rows)) }
    ensures end { OnOk result
        (EndsWith (map_of arena.old.places) (map_of arena.new.places) done.entry gathered.old
        gathered.new) }
    ensures begun { arena.new.begun ≡ arena.old.begun }
    ensures none_lent { NoneLent arena.new.places }
    ensures ticks { steps.new ≤ steps.old + length done.entry.plan.later.items }
    ensures moved { length arena.new.moved + steps.old ≤ length arena.old.moved + steps.new }
{
    let LeafDone { id, plan } = done;
    let LeafPlan {
        path,
        low,
        least: _,
        asked,
        fits: _,
        rows,
        later,
        kept,
    } = plan;
    append_answers(asked, &mut gathered.answers)?;
    if kept {
        settle_kept(
            alloc,
            arena,
            Piece { low, id },
            path,
            later,
            gathered,
            steps,
        )?;
    } else {
        settle_removed(alloc, arena, id, path, &rows, gathered)?;
    }
    Ok(())
}

// How many parts the leaves have in all.
fn part_count(done: &[LeafDone<'_>]) -> usize {
    let mut count: usize = 0;
    for leaf in done {
        count = count.saturating_add(leaf.plan.asked.len());
    }
    count
}

/// Settles all leaves in their order. It counts a step for each later leaf. `NoMemory` where memory was refused:
/// what was done so far stays, so the batch has to be rolled back.
pub fn settle_leaves<L: Ledger>(
    alloc: Global,
    arena: &mut Arena,
    done: Vec<LeafDone<'_>>,
    steps: &mut Steps<L>,
) -> Result<Gathered, NoMemory>
    requires under_way { IsSome arena.old.begun }
    requires none_lent { NoneLent arena.old.places }
    requires leaves { (others : List Cell)
        × Owns (map_of arena.old.places)
        (done_cells (map_of arena.old.places) done.items ++ others) }
    ensures ends { IfOk result (λ gathered.
        LeavesEnd (map_of arena.old.places) (map_of arena.new.places)
        (done_cells (map_of arena.old.places) done.entry.items)
        (map (end_of_done (map_of arena.old.places)) done.entry.items) gathered.nodes
        gathered.loose.items) }
    ensures answers { IfOk result (λ gathered. gathered.answers ≡ answers_of_done done.entry.items) }
    ensures begun { arena.new.begun ≡ arena.old.begun }
    ensures none_lent { NoneLent arena.new.places }
    ensures ticks { steps.new ≤ steps.old + sum_by (λ done. length done.plan.later.items) done.entry.items }
    ensures moved { length arena.new.moved + steps.old ≤ length arena.old.moved + steps.new }
{
    let mut gathered = Gathered {
        answers: AnswerList::from_vec(Vec::with_capacity(alloc, part_count(&done))?),
        nodes: ChangeList::from_vec(Vec::with_capacity(alloc, done.len())?),
        loose: Vec::new(alloc),
    };
    for leaf in done {
        settle(alloc, arena, leaf, &mut gathered, steps)?;
    }
    Ok(gathered)
}
