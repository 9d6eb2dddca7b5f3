//! Which lists hold a number.
ghost use Rattle.std.specs.Prelude.{◌≡◌, IfOk};
ghost use Rattle.log_rules.specs.Live.{contains};
ghost use Rattle.weighing.specs.Sets.{lists_with, weight_sets};

use src_sink::{Items, NoMemory};
use std::alloc::Global;

/// Whether a list holds a number.
fn has(numbers: &[u32], number: u32) -> bool
    ensures { result ≡ contains numbers.now number }
{
    for other in numbers {
        if *other == number {
            return true;
        }
    }
    false
}

/// The numbers of the lists that hold a number, counted from 1.
fn lists_with(alloc: Global, lists: &Items<Items<u32>>, number: u32) -> Result<Items<u32>, NoMemory>
    ensures { IfOk result (λ found. found ≡ lists_with lists.now number) }
{
    let list = lists.as_slice();
    let mut found = Items::new(alloc);
    for (index, numbers) in list.iter().enumerate() {
        if has(numbers.as_slice(), number) {
            found.push(index as u32 + 1)?;
        }
    }
    Ok(found)
}

/// For each point, by its number from 1 on, the numbers of the lists that hold it: where a list
/// holds the numbers of the points at which a facet is tight, the facets that are tight at the
/// point.
pub fn weight_sets(
    alloc: Global,
    tight: &Items<Items<u32>>,
    points: u32,
) -> Result<Items<Items<u32>>, NoMemory>
    ensures { IfOk result (λ sets. sets ≡ weight_sets tight.now points) }
{
    let mut sets = Items::new(alloc);
    for before in 0..points {
        sets.push(lists_with(alloc, tight, before + 1)?)?;
    }
    Ok(sets)
}
