//! A vector at which the normals of some cuts are 0, before those of the lines.
ghost use Rattle.std.specs.Prelude.{◌≡◌, ◌+◌, ◌<◌, [], map, length, reverse, All, IfOk, IfErr};
ghost use Rattle.overflows.specs.Base.{trail_normals};
ghost use Rattle.overflows.specs.Settings.{Setting};
ghost use Rattle.lin_rows.specs.Complement.{AreComplement};
ghost use Rattle.lin_rows.specs.Read.{numbers};
ghost use Rattle.outer_approx.specs.Lines.{told_by};
ghost use Rattle.overflows.specs.Faults.{Overflows};
ghost use Rattle.recession.specs.Further.{AreTail, IsNextSide, normals_of};

use exact_field::Field;
use guessed_rows::complement_in_two_ways;
use lin_rows::Rows;
use lp_form::Cut;
use outer_approx::Line;
use overflows::{SolveFault, elimination_fault};
use src_sink::{Items, NoMemory};
use std::alloc::Global;

/// The normals of cuts, as rows.
fn normals<F: Field>(alloc: Global, q: u32, cuts: &[Cut<F>]) -> Result<Rows<F>, NoMemory>
    requires { All (λ cut. length cut.w ≡ q) cuts.now }
    ensures width { IfOk result (λ rows. rows.width ≡ q) }
    ensures rows { IfOk result (λ rows. numbers F.value rows.list ≡ normals_of F.value cuts.now) }
{
    let mut rows = Rows::new(alloc, q);
    for cut in cuts {
        rows.push_row(cut.w.as_slice())?;
    }
    Ok(rows)
}

/// The vectors at which the normal of each cut is 0, in reduced echelon form, by one elimination of
/// the normals, which have `q` entries.
pub fn level_vectors<F: Field>(
    alloc: Global,
    q: u32,
    cuts: &[Cut<F>],
) -> Result<Rows<F>, SolveFault>
    requires { All (λ cut. length cut.w ≡ q) cuts.now }
    ensures ok { IfOk result (λ rows.
        AreComplement q (normals_of F.value cuts.now) (numbers F.value rows.list)) }
    ensures left { (s : Setting) → s.file.objs ≡ q
        → trail_normals s.file.objs s.trail ≡ normals_of F.value cuts.now
        → IfErr result (Overflows F.holds s []) }
{
    let rows = normals(alloc, q, cuts)?;
    match complement_in_two_ways(alloc, &rows, q) {
        Ok(vectors) => Ok(vectors),
        Err(fault) => Err(elimination_fault(alloc, &rows, fault, Items::new(alloc))),
    }
}

/// Of the vectors at which the normal of each cut is 0, in reduced echelon form, the one before the
/// last ones, which are those of the lines from the last to the first. There is one, since cuts and
/// lines are fewer than there are entries.
pub(crate) fn find_across<F: Field>(
    alloc: Global,
    q: u32,
    cuts: &[Cut<F>],
    lines: &[Line<F>],
) -> Result<Items<F>, SolveFault>
    requires tail { AreTail q (normals_of F.value cuts.now)
        (map (told_by F.value) (reverse lines.now)) }
    requires few { length cuts.now + length lines.now < q }
    requires wide { All (λ cut. length cut.w ≡ q) cuts.now }
    ensures ok { IfOk result (λ d. IsNextSide q (normals_of F.value cuts.now)
        (map (told_by F.value) (reverse lines.now)) (map F.value d)) }
    ensures left { (s : Setting) → s.file.objs ≡ q
        → trail_normals s.file.objs s.trail ≡ normals_of F.value cuts.now
        → IfErr result (Overflows F.holds s []) }
{
    let vectors = level_vectors(alloc, q, cuts)?;
    let mut d = Items::new(alloc);
    d.append(vectors.row(vectors.count() - lines.len() as u32))?;
    Ok(d)
}
