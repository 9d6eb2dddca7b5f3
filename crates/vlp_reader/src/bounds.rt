//! The bounds that a file gives rows or columns.
ghost use Rattle.std.specs.Prelude.{◌≡◌, ◌-◌, ◌≤◌, map, length, replicate, slice_set, None, Some, unwrap_or, IfOk, OnErr, MatchResult};
ghost use Rattle.vlp_reader.specs.Grammar.{bound_value};
ghost use Rattle.vlp_reader.specs.Ends.{ComesFrom};
ghost use Rattle.vlp_reader.specs.Tables.{slot_fault};

use crate::fault::{FileKind, LineEnd};
use src_sink::{Items, NoMemory};
use std::alloc::{AllocError, Global};
use vlp_problem::Bound;

/// Bounds of which none is given.
pub(crate) fn no_bounds(alloc: Global, count: u32) -> Result<Vec<Option<Bound>>, AllocError>
    ensures { IfOk result (λ v. v.items ≡ replicate count None) }
{
    let mut bounds = Vec::new(alloc);
    bounds.resize(count as usize, None)?;
    Ok(bounds)
}

/// Gives the row or column of a number from 1 its bounds.
pub(crate) fn give_bound(
    bounds: &mut [Option<Bound>],
    number: u32,
    bound: Result<Bound, FileKind>,
) -> Result<(), LineEnd>
    ensures given { MatchResult result
        (λ _. (slot_fault bounds.old number bound ≡ None)
        × (bounds.new ≡ slice_set bounds.old (number - 1) (Some (bound_value bound))))
        (ComesFrom (slot_fault bounds.old number bound)) }
    ensures same { OnErr result (bounds.new ≡ bounds.old) }
{
    if number == 0 || number as usize > bounds.len() {
        return Err(LineEnd::Kind(FileKind::OutOfRange));
    }
    let bound = bound?;
    let at = number as usize - 1;
    if bounds[at].is_some() {
        return Err(LineEnd::Kind(FileKind::Twice));
    }
    bounds[at] = Some(bound);
    Ok(())
}

/// The bounds of all rows or columns.
pub(crate) fn all_bounds(alloc: Global, bounds: &[Option<Bound>]) -> Result<Items<Bound>, NoMemory>
    ensures { IfOk result (λ all. all ≡ map (λ b. unwrap_or b Bound.Unsaid) bounds.now) }
{
    let mut all = Items::new(alloc);
    for bound in bounds {
        all.push(bound.unwrap_or(Bound::Unsaid))?;
    }
    Ok(all)
}
