//! The two ways to the log of a problem: Benson's outer approximation of its image, and that of its
//! lower image.
ghost use Rattle.std.specs.Prelude.{◌≡◌, ◌⊎◌, IfOk, IfErr};
ghost use Rattle.benson_primal.specs.Logs.{IsOwnLogAnyhow};
ghost use Rattle.cone_dual.specs.Fitting.{IsDualityOf};
ghost use Rattle.lp_form.specs.Data.{IsDataOf};
ghost use Rattle.overflows.specs.Faults.{OnLicence};
ghost use Rattle.solver.specs.Solving.{LicensedInOrder};

use crate::end::SolveEnd;
use benson_dual::dual;
use benson_primal::primal;
use cone_dual::Duality;
use deriv_log::{Entries, Licence};
use exact_field::Field;
use lp_form::Data;
use overflows::SolveFault;
use src_sink::{Items, NoMemory};
use std::alloc::Global;
use vlp_problem::Problem;

/// From so many objectives on the lower image is approximated first. With fewer the image has about
/// as many vertices as facets, and its own approximation is the shorter one; with more the polyhedra
/// that it goes through have many more vertices than the image.
const LOWER_IMAGE_FROM: usize = 5;

/// Which set is approximated from outside.
#[derive(Clone, Copy, Debug)]
pub(crate) enum Way {
    Image,
    LowerImage,
}

/// A copy of a duality vector, with lists of its own.
fn copy_duality<F: Field>(alloc: Global, duality: &Duality<F>) -> Result<Duality<F>, NoMemory>
    ensures { IfOk result (λ copy. copy ≡ duality.now) }
{
    let mut c = Items::new(alloc);
    c.append(duality.c.as_slice())?;
    let mut weights = Items::new(alloc);
    weights.append(duality.weights.as_slice())?;
    let entry = duality.entry.copy(alloc)?;
    Ok(Duality { c, weights, entry })
}

impl Way {
    /// The way that is gone first with so many objectives.
    pub(crate) fn first(objectives: usize) -> Way {
        if objectives < LOWER_IMAGE_FROM {
            Way::Image
        } else {
            Way::LowerImage
        }
    }

    /// The way that is gone where this one overflows.
    pub(crate) fn other(self) -> Way {
        match self {
            Way::Image => Way::LowerImage,
            Way::LowerImage => Way::Image,
        }
    }

    /// The log that this way finds by a duality vector.
    pub(crate) fn log<F: Field>(
        self,
        alloc: Global,
        problem: &Problem,
        form: &Data<F>,
        duality: &Duality<F>,
    ) -> Result<Entries, SolveFault>
        ghost file: { Problem }
        requires same { file ≡ problem.now }
        requires stands { IsDataOf F.value file form.now }
        requires duality { IsDualityOf F.value F.holds file duality.now }
        ensures own { IfOk result (IsOwnLogAnyhow F.holds file) }
        ensures left { IfErr result (λ fault. OnLicence fault (LicensedInOrder F.holds file)) }
    {
        match self {
            Way::Image => {
                let copy = copy_duality(alloc, duality)?;
                primal(alloc, form, copy)
            }
            Way::LowerImage => dual(alloc, form, duality),
        }
    }
}

/// The end where both ways stopped: with the first overflow, unless memory was wanting.
pub(crate) fn end_of(first: Licence, second: SolveFault) -> SolveEnd
    ensures { (result ≡ SolveEnd.Left first) ⊎ (result ≡ SolveEnd.NoMemory) }
{
    match second {
        SolveFault::Left(_second) => SolveEnd::Left(first),
        SolveFault::NoMemory => SolveEnd::NoMemory,
    }
}
