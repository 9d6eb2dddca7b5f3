//! The other representation, from what stands after the log of a conversion.
ghost use Rattle.std.specs.Prelude.{◌≡◌, ◌≢◌, ◌-◌, ◌<◌, ◌++◌, ℕ, List, All, AllPairs, IfOk, OnOk, length, map, take};
ghost use Rattle.std.specs.Cmp.Lexicographic.{slice_cmp};
ghost use Rattle.std.specs.List.{flat_map, list_all};
ghost use Rattle.frac128.specs.Sparse.{is_zero as zero_test};
ghost use Rattle.exact_field.specs.Rational.{ℚ};
ghost use Rattle.exact_field.specs.Order.{cmp_ℚ};
ghost use Rattle.log_rules.specs.Proves.{IsSorting};
ghost use Rattle.rep_conv.specs.Converted.{Gives, GivesGenerators, GivesInequalities, GivesRows, as_rows, at_height, nothing_meets, with_normal};
ghost use Rattle.rep_conv.specs.Giving.{IsGiven, front_at, side_of};
ghost use Rattle.rep_conv.specs.Live.{State, state};
ghost use Rattle.rep_conv.specs.Progress.{StandsAfter};
ghost use Rattle.rep_conv.specs.Rows.{has_rows};
ghost use Rattle.rep_text.specs.declared.conv.ConvEntry.{ConvEntry};

use crate::firsts::copy_vector;
use crate::progress::Standing;
use crate::rows::level;
use frac128::{Frac, Vector, Vectors, is_zero};
use log_live::Generator;
use rep_text::{Rep, RepKind, RepRow};
use src_sink::{Items, NoMemory};
use std::alloc::Global;
use std::cmp::Ordering;

/// The order of two vectors, entry by entry.
fn order_vectors(a: &Vector, b: &Vector) -> Ordering
    ensures { result ≡ slice_cmp cmp_ℚ a.now b.now }
{
    a.as_slice().cmp(&b.as_slice())
}

/// Vectors in rising order, where no two are equal. A sort costs n log n comparisons.
fn sort_vectors(vectors: Vectors) -> Vectors
    ensures { AllPairs (λ a b. a ≢ b) vectors → IsSorting (λ v. v) vectors result }
{
    let mut list = vectors.into_vec();
    list.sort_unstable_by(|a, b| order_vectors(a, b));
    Items::from_vec(list)
}

/// Lists a vector without its last entry, where that is t.
fn push_at(alloc: Global, t: Frac, v: &[Frac], list: &mut Vectors) -> Result<(), NoMemory>
    requires { 0 < length v.now }
    ensures { OnOk result (list.new ≡ list.old ++ front_at t v.now) }
{
    let last = v.len() - 1;
    if v[last] != t {
        return Ok(());
    }
    list.push(copy_vector(alloc, &v[..last])?)?;
    Ok(())
}

/// The vectors with this last entry, without it.
fn take_level(alloc: Global, t: Frac, generators: &[Vector]) -> Result<Vectors, NoMemory>
    requires { All (λ v. 0 < length v) generators.now }
    ensures { IfOk result (λ list. list ≡ flat_map (front_at t) generators.now) }
{
    let mut list = Items::new(alloc);
    for generator in generators {
        push_at(alloc, t, generator.as_slice(), &mut list)?;
    }
    Ok(list)
}

/// Whether all entries but the last are 0.
fn is_flat(v: &[Frac]) -> bool
    requires { 0 < length v.now }
    ensures { result ≡ list_all zero_test (take (length v.now - 1) v.now) }
{
    v[..v.len() - 1].iter().all(|x| is_zero(*x))
}

/// Lists the vector of an inequality, where its normal is not 0.
fn push_side(alloc: Global, v: &[Frac], list: &mut Vectors) -> Result<(), NoMemory>
    requires { 0 < length v.now }
    ensures { OnOk result (list.new ≡ list.old ++ side_of v.now) }
{
    if is_flat(v) {
        return Ok(());
    }
    list.push(copy_vector(alloc, v)?)?;
    Ok(())
}

/// The vectors of the inequalities whose normal is not 0.
fn found_sides(alloc: Global, generators: &[Vector]) -> Result<Vectors, NoMemory>
    requires { All (λ v. 0 < length v) generators.now }
    ensures { IfOk result (λ list. list ≡ flat_map side_of generators.now) }
{
    let mut list = Items::new(alloc);
    for generator in generators {
        push_side(alloc, generator.as_slice(), &mut list)?;
    }
    Ok(list)
}

/// A vector without its last entry.
fn front(alloc: Global, v: &[Frac]) -> Result<Vector, NoMemory>
    requires { 0 < length v.now }
    ensures { IfOk result (λ entries. entries ≡ take (length v.now - 1) v.now) }
{
    copy_vector(alloc, &v[..v.len() - 1])
}

/// The vectors without their last entries.
fn fronts(alloc: Global, vectors: &[Vector]) -> Result<Vectors, NoMemory>
    requires { All (λ v. 0 < length v) vectors.now }
    ensures { IfOk result (λ list. list ≡ map (λ v. take (length v - 1) v) vectors.now) }
{
    let mut list = Items::new(alloc);
    for v in vectors {
        list.push(front(alloc, v.as_slice())?)?;
    }
    Ok(list)
}

/// Lists vectors as rows of this kind.
fn push_as(
    alloc: Global,
    kind: RepKind,
    vectors: &[Vector],
    rows: &mut Items<RepRow>,
) -> Result<(), NoMemory>
    ensures { OnOk result (rows.new ≡ rows.old ++ as_rows kind vectors.now) }
{
    for vector in vectors {
        let v = copy_vector(alloc, vector.as_slice())?;
        rows.push(RepRow { kind, v })?;
    }
    Ok(())
}

/// Points or directions in rising order, by the last entry.
fn heights(alloc: Global, t: Frac, generators: &[Vector]) -> Result<Vectors, NoMemory>
    requires { (width : ℕ) × (s : State) × (lines : List (List ℚ))
        × IsGiven width s lines generators.now }
    ensures { (width : ℕ) (s : State) (lines : List (List ℚ))
        → IsGiven width s lines generators.now
        → IfOk result (IsSorting (λ v. v) (at_height width t s)) }
{
    let found = take_level(alloc, t, generators)?;
    Ok(sort_vectors(found))
}

/// The inequalities whose normal is not 0, in rising order.
fn sides(alloc: Global, generators: &[Vector]) -> Result<Vectors, NoMemory>
    requires { (width : ℕ) × (s : State) × (lines : List (List ℚ))
        × IsGiven width s lines generators.now }
    ensures { (width : ℕ) (s : State) (lines : List (List ℚ))
        → IsGiven width s lines generators.now
        → IfOk result (IsSorting (λ v. v) (with_normal width s)) }
{
    let found = found_sides(alloc, generators)?;
    Ok(sort_vectors(found))
}

/// The rows of lines, points and directions, the last two in rising order; none without a point.
fn generator_rows(
    alloc: Global,
    lines: &[Vector],
    generators: &[Vector],
) -> Result<Items<RepRow>, NoMemory>
    requires { (width : ℕ) × (s : State) × IsGiven width s lines.now generators.now }
    ensures { (width : ℕ) (s : State) → IsGiven width s lines.now generators.now
        → IfOk result (GivesGenerators width s) }
{
    let points = heights(alloc, Frac::from(1), generators)?;
    let directions = heights(alloc, Frac::from(0), generators)?;
    let mut rows = Items::new(alloc);
    if points.len() == 0 {
        return Ok(rows);
    }
    let line_fronts = fronts(alloc, lines)?;
    push_as(alloc, RepKind::Line, line_fronts.as_slice(), &mut rows)?;
    push_as(alloc, RepKind::Point, points.as_slice(), &mut rows)?;
    push_as(alloc, RepKind::Direction, directions.as_slice(), &mut rows)?;
    Ok(rows)
}

/// The rows of equations and inequalities, the last in rising order.
fn inequality_rows(
    alloc: Global,
    lines: &[Vector],
    generators: &[Vector],
) -> Result<Items<RepRow>, NoMemory>
    requires { (width : ℕ) × (s : State) × IsGiven width s lines.now generators.now }
    ensures { (width : ℕ) (s : State) → IsGiven width s lines.now generators.now
        → IfOk result (GivesInequalities width s) }
{
    let side_list = sides(alloc, generators)?;
    let mut rows = Items::new(alloc);
    push_as(alloc, RepKind::Equal, lines, &mut rows)?;
    push_as(alloc, RepKind::Side, side_list.as_slice(), &mut rows)?;
    Ok(rows)
}

/// The inequality that nothing meets.
fn impossible_rows(alloc: Global, width: u32) -> Result<Items<RepRow>, NoMemory>
    ensures { IfOk result (λ rows. rows ≡ nothing_meets width) }
{
    let mut rows = Items::new(alloc);
    let v = level(alloc, width)?;
    rows.push(RepRow {
        kind: RepKind::Side,
        v,
    })?;
    Ok(rows)
}

/// The rows of the other representation, by whether points, directions and lines are converted, and
/// whether there are rows.
fn other_rows(
    alloc: Global,
    gens: bool,
    some: bool,
    width: u32,
    lines: &[Vector],
    generators: &[Vector],
) -> Result<Items<RepRow>, NoMemory>
    requires { (s : State) × IsGiven width s lines.now generators.now }
    ensures { (s : State) → IsGiven width s lines.now generators.now
        → IfOk result (GivesRows gens some width s) }
{
    if !gens {
        return generator_rows(alloc, lines, generators);
    }
    if !some {
        return impossible_rows(alloc, width);
    }
    inequality_rows(alloc, lines, generators)
}

/// The other representation, by whether there are rows, and by the lines and the vectors of the
/// live generators that stand after all entries. The cost is that of two sorts.
pub fn other_rep(
    alloc: Global,
    rep: &Rep,
    some: bool,
    lines: &[Vector],
    generators: &[Vector],
) -> Result<Rep, NoMemory>
    requires some { some ≡ has_rows rep.now }
    requires given { (entries : List ConvEntry)
        × IsGiven rep.now.width (state rep.now entries) lines.now generators.now }
    ensures { (entries : List ConvEntry)
        → IsGiven rep.now.width (state rep.now entries) lines.now generators.now
        → IfOk result (Gives rep.now entries) }
{
    let rows = other_rows(alloc, rep.gens, some, rep.width, lines, generators)?;
    Ok(Rep {
        gens: !rep.gens,
        width: rep.width,
        rows,
    })
}

/// The vectors of generators.
fn vectors_of(alloc: Global, generators: &[Generator]) -> Result<Vectors, NoMemory>
    ensures { IfOk result (λ list. list ≡ map (λ g. g.vector) generators.now) }
{
    let mut list = Items::new(alloc);
    for generator in generators {
        list.push(copy_vector(alloc, generator.vector.as_slice())?)?;
    }
    Ok(list)
}

/// The other representation, by what stands after all entries.
pub fn other_rep_after(alloc: Global, rep: &Rep, standing: &Standing) -> Result<Rep, NoMemory>
    requires { (entries : List ConvEntry) × StandsAfter rep.now entries standing.now }
    ensures { (entries : List ConvEntry) → StandsAfter rep.now entries standing.now
        → IfOk result (Gives rep.now entries) }
{
    let some = standing.rows.len() != 0;
    let generators = vectors_of(alloc, standing.generators.as_slice())?;
    other_rep(
        alloc,
        rep,
        some,
        standing.lines.as_slice(),
        generators.as_slice(),
    )
}
