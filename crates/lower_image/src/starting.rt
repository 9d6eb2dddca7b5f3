//! How the cone of dual vectors begins: by the rows of a feasible point and of directions of the
//! ordering cone.
ghost use Rattle.std.specs.Prelude.{◌≡◌, List, [], map, suc, IfErr, IfOk};
ghost use Rattle.deriv_log.specs.declared.entry.Entry.{Entry};
ghost use Rattle.overflows.specs.Base.{IsBaseChoice};
ghost use Rattle.lin_rows.specs.Read.{numbers};
ghost use Rattle.lower_image.specs.Lower.{AreSpanning};
ghost use Rattle.lower_image.specs.Starting.{IsLowerDescription, first_rows};
ghost use Rattle.lp_form.specs.Data.{IsDataOf};
ghost use Rattle.outer_approx.specs.Task.{IsFitting, Task, setting};
ghost use Rattle.overflows.specs.Faults.{Overflows};

use crate::rows::{exchanged_row, image_at};
use cone_dual::describe_rows;
use deriv_log::Family;
use double_descr::Dd;
use exact_field::Field;
use lin_rows::Rows;
use lp_form::Data;
use overflows::SolveFault;
use std::alloc::Global;

/// The rows of a feasible point and of directions.
fn rows_over<F: Field>(
    alloc: Global,
    form: &Data<F>,
    c: &[F],
    x: &[F],
    directions: &Rows<F>,
) -> Result<Rows<F>, SolveFault>
    ghost task: { Task }
    requires stands { IsDataOf F.value task.file form.now }
    requires c { map F.value c.now ≡ task.c }
    requires fitting { IsFitting F.holds task }
    requires choice { IsBaseChoice task.file (map F.value x.now) }
    requires width { directions.now.width ≡ task.file.objs }
    requires directions { AreSpanning task.file (numbers F.value directions.now.list) }
    ensures width { IfOk result (λ rows. rows.width ≡ suc task.file.objs) }
    ensures rows { IfOk result (λ rows. numbers F.value rows.list
        ≡ first_rows task.file task.c (map F.value x.now) (numbers F.value directions.now.list)) }
    ensures left { (trail : List Entry) → IfErr result (Overflows F.holds (setting task trail) []) }
{
    let mut rows = Rows::new(alloc, c.len() as u32 + 1);
    let y = image_at(alloc, form, x)?;
    let first = exchanged_row(alloc, c, y.as_slice(), true)?;
    rows.push_row(first.as_slice())?;
    for k in 0..directions.count() {
        let row = exchanged_row(alloc, c, directions.row(k + 1), false)?;
        rows.push_row(row.as_slice())?;
    }
    Ok(rows)
}

/// The double description of the first rows over dual vectors, those of a feasible point and of
/// directions that span the ordering cone. No inequality outside their cone is valid for the image.
pub(crate) fn lower_description<F: Field>(
    alloc: Global,
    form: &Data<F>,
    c: &[F],
    x: &[F],
    directions: &Rows<F>,
) -> Result<Dd<F>, SolveFault>
    ghost task: { Task }
    requires stands { IsDataOf F.value task.file form.now }
    requires c { map F.value c.now ≡ task.c }
    requires fitting { IsFitting F.holds task }
    requires choice { IsBaseChoice task.file (map F.value x.now) }
    requires width { directions.now.width ≡ task.file.objs }
    requires directions { AreSpanning task.file (numbers F.value directions.now.list) }
    ensures ok { IfOk result (IsLowerDescription task) }
    ensures left { (trail : List Entry) → IfErr result (Overflows F.holds (setting task trail) []) }
{
    let rows = rows_over(alloc, form, c, x, directions)?;
    describe_rows(alloc, Family::Exchanged, &rows)
}
