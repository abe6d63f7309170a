// The calls of a batch whose replies aren't known yet, and their replies among those that are.
ghost use Rattle.std.specs.Prelude.{◌≡◌, ◌≤◌, List, [], ◌∷◌, ◌++◌, not, length, Option, IfOk};
ghost use Rattle.std.specs.List.{list_any};
ghost use Rattle.std.specs.Option.{option_to_list};
ghost use Rattle.std.specs.Vec.{vec_capacity};
ghost use Rattle.std.specs.Vec.Iter.{into_iter_items, into_iter_len};
ghost use Rattle.palm_base.specs.Pass.{is_edit};
ghost use Rattle.palm_base.specs.declared.call.Reply.{Reply};
ghost use Rattle.palm_batch.specs.OpenCalls.{open_entries, filled};

use palm_base::{Call, Entry, NoMemory, Reply};
use std::alloc::Global;
use std::vec::IntoIter;

fn is_edit(call: &Call) -> bool
    ensures { result ≡ is_edit call.now }
{
    match call {
        Call::Set { .. } | Call::Del { .. } => true,
        Call::Get { .. } | Call::Rate { .. } | Call::List { .. } => false,
    }
}

/// Whether a batch has a look-up.
pub(crate) fn has_look_up(batch: &[Entry]) -> bool
    ensures { result ≡ list_any (λ entry. not (is_edit entry.call)) batch.now }
{
    batch.iter().any(|entry| !is_edit(&entry.call))
}

/// The entries of a batch of whose replies nothing is known, in their order. `NoMemory` where room for them was
/// refused.
pub(crate) fn open_entries(
    alloc: Global,
    batch: &[Entry],
    known: &[Option<Reply>],
) -> Result<Vec<Entry>, NoMemory>
    requires { length known.now ≡ length batch.now }
    ensures { IfOk result (λ entries. entries.items ≡ open_entries known.now batch.now) }
{
    let mut left = Vec::new(alloc);
    for i in 0..batch.len() {
        if known[i].is_none() {
            left.push(batch[i])?;
        }
    }
    Ok(left)
}

// The next reply: what is known of it, or else the first of the others.
fn next_reply(known: Option<Reply>, others: &mut IntoIter<Reply>) -> Option<Reply>
    requires len { into_iter_len others.old ≡ length (into_iter_items others.old) }
    ensures len { into_iter_len others.new ≡ length (into_iter_items others.new) }
    ensures reply { (more : List (Option Reply))
        → filled (known ∷ more) (into_iter_items others.old)
        ≡ option_to_list result ++ filled more (into_iter_items others.new) }
{
    match known {
        Some(reply) => Some(reply),
        None => others.next(),
    }
}

/// Replies where they are known, and where nothing is known the others in their order. They come to stand in `room`.
pub(crate) fn fill_in(known: Vec<Option<Reply>>, others: Vec<Reply>, room: Vec<Reply>) -> Vec<Reply>
    requires empty { room.items ≡ [] }
    requires room { length known.items ≤ vec_capacity room }
    ensures { result.items ≡ filled known.items others.items }
{
    let mut all = room;
    let mut known = known.into_iter();
    let mut others = others.into_iter();
    while let Some(item) = known.next() {
        if let Some(reply) = next_reply(item, &mut others) {
            all.push_reserved(reply);
        }
    }
    all
}
