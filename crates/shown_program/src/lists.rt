//! Copies of lists.
ghost use Rattle.std.specs.Prelude.{◌≡◌, ◌∷◌, IfOk};

use src_sink::{Items, NoMemory};
use std::alloc::Global;

/// A copy of a list.
pub(crate) fn copy_items<T: Copy>(alloc: Global, list: &[T]) -> Result<Items<T>, NoMemory>
    ensures { IfOk result (λ copy. copy ≡ list.now) }
{
    let mut copy = Items::new(alloc);
    copy.append(list)?;
    Ok(copy)
}

/// A list with an item before its first.
pub(crate) fn with_first<T: Copy>(alloc: Global, first: T, list: &[T]) -> Result<Items<T>, NoMemory>
    ensures { IfOk result (λ longer. longer ≡ first ∷ list.now) }
{
    let mut longer = Items::new(alloc);
    longer.push(first)?;
    longer.append(list)?;
    Ok(longer)
}
