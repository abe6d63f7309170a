// The parts of calls: those that ask one leaf each.
ghost use Rattle.std.specs.Prelude.{◌≡◌, ◌++◌, ◌∷◌, [], List, ℕ, filter, IfOk, OnOk};
ghost use Rattle.palm_arena.specs.Leaves.{leaves_at, leaves_under};
ghost use Rattle.palm_arena.specs.Reads.{map_of, HasTree};
ghost use Rattle.palm_base.specs.Key.{key};
ghost use Rattle.palm_node.specs.declared.id.NodeId.{NodeId};
ghost use Rattle.std.specs.List.{AllByRecursion};
ghost use Rattle.palm_route.specs.Edits.{EditsPrefix};
ghost use Rattle.palm_route.specs.Parts.{lows_of, is_later, list_keys, front_keys, parts_by_keys, parts_of_call};
ghost use Rattle.palm_route.specs.Parts.{parts_of};
ghost use Rattle.palm_route.specs.Ranges.{HasRange};
ghost use Rattle.palm_route.specs.declared.part.Ask.TheVariants as ask;

use crate::part::{Ask, Part, PartList};
use palm_arena::{Arena, Shape};
use palm_base::{Call, Digits, Entry, Limit, NoMemory};
use palm_node::{Node, NodeId};
use std::alloc::Global;

// Keys from one to another, both included.
#[derive(Drop)]
struct Span {
    from: u64,
    to: u64,
}

// Appends the lows of the leaves below a node that lie above `from` and not above `to`. The node's own range begins
// at `low`.
fn append_lows(
    arena: &Arena,
    id: NodeId,
    below: u32,
    low: u64,
    span: &Span,
    keys: &mut Vec<u64>,
) -> Result<(), NoMemory>
    requires node { HasRange (map_of arena.now.places) below low id }
    ensures ok { OnOk result
        ((path : List (NodeId × ℕ))
        → keys.new.items ≡ keys.old.items ++ filter (is_later span.now.from span.now.to)
        (lows_of (leaves_under (map_of arena.now.places) below path low id))) }
{
    let inner = match arena.read(id) {
        Node::Leaf(_) => return append_low(low, span, keys),
        Node::Inner(inner) => inner,
    };
    let last = inner.route(span.to);
    let mut i = inner.route(span.from);
    while i <= last {
        let first = inner.low_of_child(i, low);
        append_lows(arena, inner.child(i), below - 1, first, span, keys)?;
        i += 1;
    }
    Ok(())
}

// Appends a leaf's low where it lies above `from` and not above `to`.
fn append_low(low: u64, span: &Span, keys: &mut Vec<u64>) -> Result<(), NoMemory>
    ensures ok { OnOk result
        (keys.new.items ≡ keys.old.items ++ filter (is_later span.now.from span.now.to)
        (low ∷ [])) }
{
    if span.from < low && low <= span.to {
        keys.push(low)?;
    }
    Ok(())
}

// Puts the keys by which a List is routed in place of those that stand there.
fn put_keys(arena: &Arena, shape: Shape, span: &Span, keys: &mut Vec<u64>) -> Result<(), NoMemory>
    requires tree { HasTree (map_of arena.now.places) shape }
    ensures { OnOk result
        (keys.new.items ≡ list_keys span.now.from span.now.to
        (lows_of (leaves_at (map_of arena.now.places) shape))) }
{
    keys.clear();
    if span.from > span.to {
        return Ok(());
    }
    keys.push(span.from)?;
    append_lows(arena, shape.root, shape.levels - 1, 0, span, keys)
}

// Appends a part for each key of a List.
fn append_list(
    entry: u64,
    keys: &[u64],
    from: Digits,
    to: Digits,
    limit: Limit,
    parts: &mut PartList,
) -> Result<(), NoMemory>
    ensures ok { OnOk result
        (parts.new ≡ parts.old ++ parts_by_keys entry 0 (ask.List from to limit) keys.now) }
{
    for (i, key) in keys.iter().enumerate() {
        let ask = Ask::List { from, to, limit };
        parts.push(Part {
            entry,
            number: i as u64,
            key: *key,
            ask,
        })?;
    }
    Ok(())
}

// Appends a part for each front of a number, the shortest first.
fn append_fronts(entry: u64, number: &Digits, parts: &mut PartList) -> Result<(), NoMemory>
    ensures ok { OnOk result
        (parts.new ≡ parts.old ++ parts_by_keys entry 0 ask.Look (front_keys number.now)) }
{
    for i in 0..number.len() {
        let key = number.front(i + 1).key();
        parts.push(Part {
            entry,
            number: u64::from(i),
            key,
            ask: Ask::Look,
        })?;
    }
    Ok(())
}

// Appends the parts of a call. `keys` is room for the keys of a List, which the Lists of a batch share.
fn append_call(
    arena: &Arena,
    shape: Shape,
    entry: u64,
    call: &Call,
    keys: &mut Vec<u64>,
    parts: &mut PartList,
) -> Result<(), NoMemory>
    requires tree { HasTree (map_of arena.now.places) shape }
    ensures ok { OnOk result
        (parts.new ≡ parts.old ++ parts_of_call (leaves_at (map_of arena.now.places) shape)
        entry call.now) }
    ensures prefix { EditsPrefix call.now }
{
    match call {
        Call::Set { prefix, rate } => parts.push(Part {
            entry,
            number: 0,
            key: prefix.key(),
            ask: Ask::Set(*rate),
        }),
        Call::Del { prefix } => parts.push(Part {
            entry,
            number: 0,
            key: prefix.key(),
            ask: Ask::Del,
        }),
        Call::Get { prefix } => parts.push(Part {
            entry,
            number: 0,
            key: prefix.key(),
            ask: Ask::Look,
        }),
        Call::Rate { number } => append_fronts(entry, number, parts),
        Call::List { from, to, limit } => {
            let span = Span {
                from: from.key(),
                to: to.key(),
            };
            put_keys(arena, shape, &span, keys)?;
            append_list(entry, keys.as_slice(), *from, *to, *limit, parts)
        }
    }
}

/// Splits the calls of a batch into parts, in order. A Set, a Del or a Get is one part. A Rate is a part for each
/// front of its number, the shortest first. A List is a part for each leaf of the tree whose range has one of its
/// keys.
///
/// `NoMemory` where room for them was refused.
pub fn expand(
    alloc: Global,
    arena: &Arena,
    shape: Shape,
    batch: &[Entry],
) -> Result<PartList, NoMemory>
    requires tree { HasTree (map_of arena.now.places) shape }
    ensures parts { IfOk result (λ parts.
        parts ≡ parts_of (leaves_at (map_of arena.now.places) shape) 0 batch.now) }
    ensures prefixes { OnOk result (AllByRecursion (λ entry. EditsPrefix entry.call) batch.now) }
{
    let mut parts = PartList::from_vec(Vec::with_capacity(alloc, batch.len())?);
    let mut keys = Vec::new(alloc);
    for (place, entry) in batch.iter().enumerate() {
        append_call(
            arena,
            shape,
            place as u64,
            &entry.call,
            &mut keys,
            &mut parts,
        )?;
    }
    Ok(parts)
}
