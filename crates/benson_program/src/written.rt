//! Benson's program, written once for the data of a problem: from question to question only its
//! cost is replaced.
ghost use Rattle.std.specs.Prelude.{◌≡◌, map, length, IfOk, IfErr, IfSome};
ghost use Rattle.benson_program.specs.Ends.{StandForSome};
ghost use Rattle.exact_simplex.specs.Ends.{IsCertified, IsLpFault, IsReadOff};
ghost use Rattle.lp_form.specs.Data.{IsDataOf};
ghost use Rattle.lp_form.specs.Programs.{benson_system};
ghost use Rattle.vlp_problem.specs.declared.problem.Problem.{Problem as File};

use crate::same::{copy, copy_data, is_same_data, is_same_vector};
use exact_field::Field;
use exact_simplex::{Kept as Dictionary, LpEnd, LpFault, solve_lp_next, solve_lp_with_cost};
use lp_form::{Data, LpName, benson_cost, program};
use src_sink::Items;
use std::alloc::Global;
use std::marker::Model;

/// Benson's program for a duality vector over data, as it is written, with its last dictionary.
#[derive(Drop)]
pub(crate) struct Written<F: Field> {
    form: Data<F>,
    c: Items<F>,
    program: Dictionary<F>,
}

impl<F: Field> Model for Written<F> {
    ghost use Rattle.std.specs.Prelude.{ℕ};

    ghost Value = { ℕ };

    ghost use Rattle.benson_program.specs.Written.{IsBensonFor};

    ghost view = { λ w. w.form.cols };

    ghost invariant = { λ w. IsBensonFor F.value w.form w.c w.program };
}

impl<F: Field> Written<F> {
    /// How the program ends at `v`, with the cost of that, if it is the one for these data and this
    /// duality vector.
    fn end_at(
        &mut self,
        alloc: Global,
        form: &Data<F>,
        c: &[F],
        v: &[F],
        t: bool,
    ) -> Result<Option<LpEnd<F>>, LpFault<F>>
        requires stands { StandForSome F.value form.now }
        requires v { length v.now ≡ length form.now.p }
        ensures certified { (file : File) → IsDataOf F.value file form.now
            → IfOk result (λ o. IfSome o (IsCertified F.value
            (benson_system file (map F.value c.now) (map F.value v.now) t))) }
        ensures read_off { (file : File) → IsDataOf F.value file form.now
            → IfOk result (λ o. IfSome o (IsReadOff F.value
            (benson_system file (map F.value c.now) (map F.value v.now) t))) }
        ensures left { (file : File) → IsDataOf F.value file form.now
            → IfErr result (IsLpFault F.value F.holds
            (benson_system file (map F.value c.now) (map F.value v.now) t)) }
    {
        if !is_same_vector(c, self.c.as_slice()) || !is_same_data(form, &self.form) {
            return Ok(None);
        }
        let cost = benson_cost(alloc, form, v, t)?;
        match solve_lp_with_cost(alloc, cost, &mut self.program) {
            Ok(end) => Ok(Some(end)),
            Err(fault) => Err(fault),
        }
    }
}

/// How Benson's program at `v` ends, which is written anew, and kept.
fn written_end<F: Field>(
    alloc: Global,
    form: &Data<F>,
    c: &[F],
    v: &[F],
    t: bool,
    written: &mut Option<Written<F>>,
) -> Result<LpEnd<F>, LpFault<F>>
    requires stands { StandForSome F.value form.now }
    requires c { length c.now ≡ length form.now.p }
    requires v { length v.now ≡ length form.now.p }
    ensures certified { (file : File) → IsDataOf F.value file form.now
        → IfOk result
        (IsCertified F.value (benson_system file (map F.value c.now) (map F.value v.now) t)) }
    ensures read_off { (file : File) → IsDataOf F.value file form.now
        → IfOk result
        (IsReadOff F.value (benson_system file (map F.value c.now) (map F.value v.now) t)) }
    ensures left { (file : File) → IsDataOf F.value file form.now
        → IfErr result (IsLpFault F.value F.holds
        (benson_system file (map F.value c.now) (map F.value v.now) t)) }
{
    let own_form = copy_data(alloc, form)?;
    let own_c = copy(alloc, c)?;
    let name = LpName::Benson {
        v: copy(alloc, v)?,
        t,
    };
    let system = program(alloc, form, c, &name)?;
    let mut program = Dictionary::new();
    let end = solve_lp_next(alloc, system, &mut program);
    let last = Written {
        form: own_form,
        c: own_c,
        program,
    };
    *written = Some(last);
    end
}

/// How Benson's program at `v` ends by pivots, from where the last one of these ended.
pub(crate) fn pivot_benson<F: Field>(
    alloc: Global,
    form: &Data<F>,
    c: &[F],
    v: &[F],
    t: bool,
    written: &mut Option<Written<F>>,
) -> Result<LpEnd<F>, LpFault<F>>
    requires stands { StandForSome F.value form.now }
    requires c { length c.now ≡ length form.now.p }
    requires v { length v.now ≡ length form.now.p }
    ensures certified { (file : File) → IsDataOf F.value file form.now
        → IfOk result
        (IsCertified F.value (benson_system file (map F.value c.now) (map F.value v.now) t)) }
    ensures read_off { (file : File) → IsDataOf F.value file form.now
        → IfOk result
        (IsReadOff F.value (benson_system file (map F.value c.now) (map F.value v.now) t)) }
    ensures left { (file : File) → IsDataOf F.value file form.now
        → IfErr result (IsLpFault F.value F.holds
        (benson_system file (map F.value c.now) (map F.value v.now) t)) }
{
    if let Some(last) = written {
        if let Some(end) = last.end_at(alloc, form, c, v, t)? {
            return Ok(end);
        }
    }
    written_end(alloc, form, c, v, t, written)
}
