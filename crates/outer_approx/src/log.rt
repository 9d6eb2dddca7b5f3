//! The log of an outer approximation as it grows by cuts and pre-images beside its double
//! description.
ghost use Rattle.std.specs.Prelude.{◌≡◌, ◌≤◌, IfOk, map, ◌++◌, ◌∷◌, [], ℕ, List, All, IsTrue, OnOk, OnErr, length};
ghost use Rattle.lp_form.specs.Sparse.{IsSparseOf};
ghost use Rattle.outer_approx.specs.Cuts.{said_by, IsCutFor, SaysCut};
ghost use Rattle.outer_approx.specs.Lined.{SaysLine};
ghost use Rattle.outer_approx.specs.Lines.{AreLinesFor, told_by};
ghost use Rattle.deriv_log.specs.Formed.{is_formed};
ghost use Rattle.word_lines.specs.Parts.{is_formed_part};
ghost use Rattle.word_lines.specs.Parts as part;
ghost use Rattle.deriv_log.specs.declared.entry.Entry.{Entry as EntryOf};
ghost use Rattle.deriv_log.specs.declared.entry.Entry.TheVariants as entry_of;
ghost use Rattle.exact_field.specs.Rational.{ℚ};
ghost use Rattle.overflows.specs.Base.{IsBaseChoice};
ghost use Rattle.log_rules.specs.Live.{preimages};
ghost use Rattle.log_rules.specs.Order.{has};
ghost use Rattle.log_rules.specs.Order as order;
ghost use Rattle.outer_approx.specs.Preimages.{IsReached};
ghost use Rattle.outer_approx.specs.Standing.{HasCutMore, HasPreimageMore, IsBegun, IsOpenTrail, IsOpening};
ghost use Rattle.outer_approx.specs.Task.{Task};

use deriv_log::{Entries, Entry};
use exact_field::Field;
use frac128::{Sparse, Vector, frac_of};
use lp_form::{Cut, Preimage};
use overflows::{
    duality_is_written, fractions, fractions_are_written, spots_are_written, spots_of,
};
use src_sink::{Items, NoMemory};
use std::alloc::Global;

/// A line of the image, by a direction `d` of it, with what shows that `d` and its negative are
/// directions.
#[derive(Debug, Drop)]
pub struct Line<F: Drop> {
    /// The direction: a number for each objective, of which the first that is not 0 is 1.
    pub d: Items<F>,
    /// A pre-image of the direction.
    pub forth: Preimage<F>,
    /// A pre-image of its negative.
    pub back: Preimage<F>,
}

/// Appends the entry of a cut to any list of entries.
pub fn push_cut_entry<F: Field>(
    alloc: Global,
    entries: &mut Entries,
    cut: &Cut<F>,
) -> Result<(), NoMemory>
    ensures ok { OnOk result
        ((e : EntryOf) × SaysCut F.value cut.now e × (entries.new ≡ entries.old ++ e ∷ [])) }
    ensures err { OnErr result (entries.new ≡ entries.old) }
{
    let w = fractions(alloc, cut.w.as_slice())?;
    let gamma = frac_of(cut.gamma);
    let u = spots_of(alloc, cut.u.as_slice())?;
    let v = spots_of(alloc, cut.v.as_slice())?;
    fractions_are_written(w.as_slice());
    let _num = gamma.num();
    spots_are_written(u.as_slice());
    spots_are_written(v.as_slice());
    entries.push(Entry::Cut { w, gamma, u, v })
}

/// Appends the entry of a cut.
pub fn push_cut<F: Field>(alloc: Global, trail: &mut Entries, cut: &Cut<F>) -> Result<(), NoMemory>
    ghost task: { Task }
    requires trail { IsOpenTrail task trail.old }
    requires cut { IsCutFor F.value task cut.now }
    ensures trail { OnOk result (IsOpenTrail task trail.new) }
    ensures more { OnOk result (HasCutMore task (said_by F.value cut.now) trail.old trail.new) }
    ensures err { OnErr result (trail.new ≡ trail.old) }
{
    push_cut_entry(alloc, trail, cut)
}

/// Appends the pre-image of the live generator `g`, a point where `t` and else a direction.
pub fn push_preimage<F: Field>(
    alloc: Global,
    trail: &mut Entries,
    g: u32,
    t: bool,
    parts: &Preimage<F>,
) -> Result<(), NoMemory>
    ghost task: { Task }
    requires trail { IsOpenTrail task trail.old }
    requires started { IsTrue (has order.start trail.old) }
    requires parts { IsReached F.value task trail.old g t parts.now }
    ensures trail { OnOk result (IsOpenTrail task trail.new) }
    ensures more { OnOk result (HasPreimageMore task g trail.old trail.new) }
    ensures err { OnErr result (trail.new ≡ trail.old) }
{
    let x = spots_of(alloc, parts.x.as_slice())?;
    let m = spots_of(alloc, parts.m.as_slice())?;
    spots_are_written(x.as_slice());
    spots_are_written(m.as_slice());
    if t {
        trail.push(Entry::Point { generator: g, x, m })
    } else {
        trail.push(Entry::Ray { generator: g, x, m })
    }
}

/// A `version` entry and a `duality` entry.
fn open_log(alloc: Global, opening: Entry) -> Result<Entries, NoMemory>
    ensures entries { IfOk result (λ entries. entries ≡ entry_of.Version 1 ∷ opening ∷ []) }
    ensures written { (c weights : List ℚ) (picks : List ℕ) (inverse : List ℚ)
        → opening ≡ entry_of.Duality c weights picks inverse
        → IfOk result (λ entries. All (λ e. IsTrue (is_formed e)) entries) }
{
    duality_is_written(&opening);
    let mut entries = Items::new(alloc);
    entries.push(Entry::Version(1))?;
    entries.push(opening)?;
    Ok(entries)
}

/// A list of numbers as fractions, which can be written.
fn written_vector<F: Field>(alloc: Global, list: &[F]) -> Result<Vector, NoMemory>
    ensures same { IfOk result (λ vector. vector ≡ map F.value list.now) }
    ensures written { IfOk result (λ vector. IsTrue (is_formed_part (part.vector vector))) }
{
    let vector = fractions(alloc, list)?;
    fractions_are_written(vector.as_slice());
    Ok(vector)
}

/// The sparse vector of a list of numbers, which can be written.
fn written_spots<F: Field>(alloc: Global, list: &[F]) -> Result<Sparse, NoMemory>
    requires { length list.now ≤ 4294967294 }
    ensures same { IfOk result (IsSparseOf F.value list.now) }
    ensures written { IfOk result (λ spots. IsTrue (is_formed_part (part.sparse spots))) }
{
    let spots = spots_of(alloc, list)?;
    spots_are_written(spots.as_slice());
    Ok(spots)
}

/// Appends the entry of a line, with a feasible point x.
fn push_line<F: Field>(
    alloc: Global,
    trail: &mut Entries,
    x: &Items<F>,
    line: &Line<F>,
) -> Result<(), NoMemory>
    ensures { OnOk result
        ((e : EntryOf) × SaysLine F.value x.now line.now e × (trail.new ≡ trail.old ++ e ∷ [])) }
{
    let d = written_vector(alloc, line.d.as_slice())?;
    let x = written_spots(alloc, x.as_slice())?;
    let ray = written_spots(alloc, line.forth.x.as_slice())?;
    let m = written_spots(alloc, line.forth.m.as_slice())?;
    let back = written_spots(alloc, line.back.x.as_slice())?;
    let n = written_spots(alloc, line.back.m.as_slice())?;
    trail.push(Entry::Line {
        d,
        x,
        ray,
        m,
        back,
        n,
    })
}

/// The entries of a log that begins with a duality entry and has these cuts.
fn with_cuts<F: Field>(alloc: Global, opening: Entry, cuts: &[Cut<F>]) -> Result<Entries, NoMemory>
    ghost task: { Task }
    requires opening { IsOpening task opening }
    requires cuts { All (IsCutFor F.value task) cuts.now }
    ensures begun { IfOk result (IsBegun task [] (map (said_by F.value) cuts.now)) }
    ensures unreached { IfOk result (λ trail. (k : ℕ) → preimages trail k ≡ []) }
{
    let mut trail = open_log(alloc, opening)?;
    for cut in cuts {
        push_cut(alloc, &mut trail, cut)?;
    }
    Ok(trail)
}

/// The entries of a log that begins with a duality entry, and has these cuts and then these lines,
/// each with the feasible point x.
pub fn open_trail<F: Field>(
    alloc: Global,
    opening: Entry,
    x: &Items<F>,
    lines: &[Line<F>],
    cuts: &[Cut<F>],
) -> Result<Entries, NoMemory>
    ghost task: { Task }
    requires opening { IsOpening task opening }
    requires cuts { All (IsCutFor F.value task) cuts.now }
    requires choice { IsBaseChoice task.file (map F.value x.now) }
    requires lines { AreLinesFor F.value task (map (λ cut. map F.value cut.w) cuts.now) lines.now }
    ensures begun { IfOk result
        (IsBegun task (map (told_by F.value) lines.now) (map (said_by F.value) cuts.now)) }
    ensures unreached { IfOk result (λ trail. (k : ℕ) → preimages trail k ≡ []) }
{
    let mut trail = with_cuts(alloc, opening, cuts)?;
    for line in lines {
        push_line(alloc, &mut trail, x, line)?;
    }
    Ok(trail)
}
