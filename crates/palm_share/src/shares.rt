// Items cut into shares, one for each worker.
ghost use Rattle.std.specs.Prelude.{◌≡◌, ◌≤◌, ◌+◌, ◌/◌, length, IfOk};
ghost use Rattle.std.specs.List.{AllByRecursion, flat_map};

use std::alloc::{AllocError, Global};

/// Cuts items into `count` shares, in their order, of which no two differ by more than one item. The error says that room for the
/// list of shares was refused.
pub fn cut<T: Drop>(alloc: Global, items: &[T], count: usize) -> Result<Vec<&[T]>, AllocError>
    requires some { 1 ≤ count }
    ensures count { IfOk result (λ shares. length shares.items ≡ count) }
    ensures whole { IfOk result (λ shares. flat_map (λ share. share.now) shares.items ≡ items.now) }
    ensures least { IfOk result (λ shares. AllByRecursion (λ share. length items.now / count ≤ length share.now) shares.items) }
    ensures most { IfOk result (λ shares. AllByRecursion (λ share. length share.now ≤ length items.now / count + 1) shares.items) }
{
    let mut shares = Vec::with_capacity(alloc, count)?;
    let mut rest = items;
    let mut left = count;
    while left > 1 {
        let (share, behind) = rest.split_at(rest.len() / left);
        shares.push(share)?;
        rest = behind;
        left -= 1;
    }
    shares.push(rest)?;
    Ok(shares)
}
