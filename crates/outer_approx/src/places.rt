//! The places of lines, and the rows of cuts without the entries there.
ghost use Rattle.std.specs.Prelude.{◌≡◌, IfOk, length, map};
ghost use Rattle.lineality.specs.Without.{is_line_place, marks, without};
ghost use Rattle.outer_approx.specs.Cuts.{said_by};
ghost use Rattle.outer_approx.specs.Lines.{told_by};
ghost use Rattle.polyhedra.specs.Exactness.{row_of};

use crate::log::Line;
use exact_field::Field;
use lineality::line_places::{leading_place, row_without};
use lp_form::Cut;
use src_sink::{Items, NoMemory};
use std::alloc::Global;

/// Whether a place is that of a line.
fn is_line_place<F: Field>(lines: &[Line<F>], place: usize) -> bool
    ensures { result ≡ is_line_place (map (told_by F.value) lines.now) place }
{
    for line in lines {
        if leading_place(line.d.as_slice()) == place {
            return true;
        }
    }
    false
}

/// For each of `q` objectives whether it stands at the place of a line.
pub fn places_of<F: Field>(
    alloc: Global,
    q: u32,
    lines: &[Line<F>],
) -> Result<Items<bool>, NoMemory>
    ensures { IfOk result (λ places. places ≡ marks q (map (told_by F.value) lines.now)) }
{
    let mut places = Items::new(alloc);
    for k in 0..q {
        places.push(is_line_place(lines, k as usize + 1))?;
    }
    Ok(places)
}

/// The row of a cut without the entries at the places of lines: its w, and then its bound negated.
pub fn cut_row<F: Field>(alloc: Global, places: &[bool], cut: &Cut<F>) -> Result<Items<F>, NoMemory>
    requires { length places.now ≡ length cut.now.w }
    ensures { IfOk result
        (λ row. map F.value row ≡ without places.now (row_of (said_by F.value cut.now))) }
{
    let mut row = row_without(alloc, places, cut.w.as_slice())?;
    row.push(cut.gamma.neg())?;
    Ok(row)
}
