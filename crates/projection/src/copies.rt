//! Copies of what an answer tells, without last entries.
ghost use Rattle.std.specs.Prelude.{◌≡◌, ◌≤◌, map, length, take, IfOk};
ghost use Rattle.projection.specs.Found.{shortened, shortened_line};

use frac128::{Frac, Vector};
use log_rules::{Facet, Gen, LineGen};
use src_sink::{Items, NoMemory};
use std::alloc::Global;

pub(crate) fn copy_list<T: Copy>(alloc: Global, list: &Items<T>) -> Result<Items<T>, NoMemory>
    ensures { IfOk result (λ copy. copy ≡ list.now) }
{
    let mut copy = Items::new(alloc);
    copy.append(list.as_slice())?;
    Ok(copy)
}

/// The first k numbers, or all where there are no more.
fn first_numbers(k: u32, numbers: &[Frac]) -> &[Frac]
    ensures { result.now ≡ take k numbers.now }
{
    let k = k as usize;
    if k < numbers.len() {
        &numbers[..k]
    } else {
        numbers
    }
}

/// The first k entries of a vector, or all where it has no more.
fn front(alloc: Global, k: u32, vector: &Vector) -> Result<Vector, NoMemory>
    ensures { IfOk result (λ entries. entries ≡ take k vector.now) }
{
    let mut entries = Items::new(alloc);
    entries.append(first_numbers(k, vector.as_slice()))?;
    Ok(entries)
}

/// A point or direction without the entries after the first k.
pub(crate) fn short_gen(alloc: Global, k: u32, member: &Gen) -> Result<Gen, NoMemory>
    ensures { IfOk result (λ short. short ≡ shortened k member.now) }
{
    Ok(Gen {
        y: front(alloc, k, &member.y)?,
        pre: copy_list(alloc, &member.pre)?,
    })
}

/// A line without the entries after the first k.
fn short_line(alloc: Global, k: u32, line: &LineGen) -> Result<LineGen, NoMemory>
    ensures { IfOk result (λ short. short ≡ shortened_line k line.now) }
{
    Ok(LineGen {
        d: front(alloc, k, &line.d)?,
        ray: copy_list(alloc, &line.ray)?,
        back: copy_list(alloc, &line.back)?,
    })
}

/// A copy of a facet.
fn same_facet(alloc: Global, facet: &Facet) -> Result<Facet, NoMemory>
    ensures { IfOk result (λ copy. copy ≡ facet.now) }
{
    Ok(Facet {
        w: copy_list(alloc, &facet.w)?,
        gamma: facet.gamma,
        u: copy_list(alloc, &facet.u)?,
        tight: copy_list(alloc, &facet.tight)?,
    })
}

/// All points without the entries after the first k.
pub(crate) fn short_gens(alloc: Global, k: u32, members: &[Gen]) -> Result<Items<Gen>, NoMemory>
    ensures { IfOk result (λ short. short ≡ map (shortened k) members.now) }
{
    let mut short = Items::new(alloc);
    for member in members {
        short.push(short_gen(alloc, k, member)?)?;
    }
    Ok(short)
}

/// All lines without the entries after the first k.
pub(crate) fn short_lines(
    alloc: Global,
    k: u32,
    lines: &[LineGen],
) -> Result<Items<LineGen>, NoMemory>
    ensures { IfOk result (λ short. short ≡ map (shortened_line k) lines.now) }
{
    let mut short = Items::new(alloc);
    for line in lines {
        short.push(short_line(alloc, k, line)?)?;
    }
    Ok(short)
}

/// A copy of facets.
pub(crate) fn same_facets(alloc: Global, facets: &[Facet]) -> Result<Items<Facet>, NoMemory>
    ensures { IfOk result (λ copy. copy ≡ facets.now) }
{
    let mut copy = Items::new(alloc);
    for facet in facets {
        copy.push(same_facet(alloc, facet)?)?;
    }
    Ok(copy)
}
