// The keys at which a batch edits the table.
ghost use Rattle.std.specs.Prelude.{◌≡◌, [], ◌∷◌, IfOk, OnOk, IsPermutation, IsSorted, MatchOption};
ghost use Rattle.std.specs.List.{AllByRecursion};
ghost use Rattle.std.specs.Ordering.{nat_cmp};
ghost use Rattle.palm_base.specs.Lows.{SetsPrefix};
ghost use Rattle.palm_look.specs.EditKeys.{keys_edited, key_edited};

use palm_base::{Call, Entry, NoMemory};
use std::alloc::Global;

// The key of an edit's prefix.
fn key_of(call: &Call) -> Option<u64>
    ensures key { MatchOption result (key_edited call.now ≡ []) (λ key. key_edited call.now ≡ key ∷ []) }
    ensures prefix { SetsPrefix call.now }
{
    match call {
        Call::Set { prefix, .. } | Call::Del { prefix } => Some(prefix.key()),
        Call::Get { .. } | Call::Rate { .. } | Call::List { .. } => None,
    }
}

// The keys of a batch's edits, in the order of the batch.
fn unsorted(alloc: Global, batch: &[Entry]) -> Result<Vec<u64>, NoMemory>
    ensures keys { IfOk result (λ keys. keys.items ≡ keys_edited batch.now) }
    ensures prefixes { OnOk result (AllByRecursion (λ entry. SetsPrefix entry.call) batch.now) }
{
    let mut keys = Vec::new(alloc);
    for entry in batch {
        if let Some(key) = key_of(&entry.call) {
            keys.push(key)?;
        }
    }
    Ok(keys)
}

/// The keys of a batch's edits, sorted. `NoMemory` where room for them was refused.
pub(crate) fn edit_keys(alloc: Global, batch: &[Entry]) -> Result<Vec<u64>, NoMemory>
    ensures keys { IfOk result (λ keys. IsPermutation (keys_edited batch.now) keys.items) }
    ensures sorted { IfOk result (λ keys. IsSorted nat_cmp keys.items) }
    ensures prefixes { OnOk result (AllByRecursion (λ entry. SetsPrefix entry.call) batch.now) }
{
    let mut keys = unsorted(alloc, batch)?;
    keys.sort_unstable();
    Ok(keys)
}
