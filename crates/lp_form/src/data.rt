//! What the programs take from a problem, in any exact field.
ghost use Rattle.std.specs.Prelude.{◌≤◌, ◌<◌, length, IsTrue};
ghost use Rattle.std.specs.List.{list_all};
ghost use Rattle.vlp_problem.specs.Cones.{duality_fits};
ghost use Rattle.lp_form.specs.Shapes.{are_places, vectors_fit};

use crate::field::{cone_in, duality_in, lines_in, sides_in};
use crate::numbers::test_numbers;
use exact_field::Field;
use frac128::Frac;
use lin_rows::spots::Spot;
use src_sink::{Items, NoMemory};
use std::alloc::Global;
use vlp_matrices::Matrices;
use vlp_problem::Problem;

/// An entry that is not 0, with its place, from 1. In a list of these the places rise.
pub type At<F> = Spot<F>;

/// An inequality `g . x >= beta`.
#[derive(Debug, Drop)]
pub struct SideOf<F: Drop> {
    pub g: Items<At<F>>,
    pub beta: F,
}

/// The ordering cone, with its vectors in the field.
#[derive(Debug, Drop)]
pub enum ConeOf<F: Drop> {
    /// All vectors without a negative entry.
    Orthant,
    /// The nonnegative combinations of these vectors.
    Gens(Items<Items<F>>),
    /// The vectors whose product with each of these is at least 0.
    Dual(Items<Items<F>>),
}

/// A problem in a field: its sides in their order, the rows of its objectives (negated where it
/// maximises), its ordering cone and the duality vector that it gives.
#[derive(Debug, Drop)]
pub struct Data<F: Drop> {
    /// How many variables there are.
    pub cols: u32,
    pub sides: Items<SideOf<F>>,
    /// The objectives, one list for each.
    pub p: Items<Items<At<F>>>,
    pub cone: ConeOf<F>,
    pub duality: Option<Items<F>>,
    ghost some_column: { 0 < cols },
    ghost cols_bounded: { cols ≤ 100000 },
    ghost sides_bounded: { length sides ≤ 400000 },
    ghost some_objective: { 0 < length p },
    ghost objs_bounded: { length p ≤ 100000 },
    ghost side_places: { IsTrue (list_all (λ s. are_places cols 0 s.g) sides) },
    ghost objective_places: { IsTrue (list_all (are_places cols 0) p) },
    ghost cone_vectors: { IsTrue (vectors_fit (length p) cone) },
    ghost duality_entries: { IsTrue (duality_fits (length p) duality) },
}

/// Why a problem has no data in a field.
#[derive(Clone, Copy, Debug, PartialEq, Eq)]
pub enum DataFault {
    /// The first number of the problem, in the order of printing, that the field does not hold.
    NotHeld(Frac),
    NoMemory,
}

impl From<NoMemory> for DataFault {
    ghost use Rattle.std.specs.Prelude.{◌≡◌};
    ghost use Rattle.lp_form.specs.declared.data.DataFault.TheVariants as fault;

    ghost from_gives = { λ _ e. e ≡ fault.NoMemory };

    fn from(_e: NoMemory) -> DataFault {
        DataFault::NoMemory
    }
}

impl<F: Field> Data<F> {
    ghost use Rattle.std.specs.Prelude.{All, IfOk, IfErr};
    ghost use Rattle.vlp_problem.specs.Values.{printed_numbers};
    ghost use Rattle.lp_form.specs.Data.{IsDataOf, RefusesNumber};

    /// The data of a problem. The cost is that of its entries that are not 0, its rows and its
    /// columns.
    pub fn of(alloc: Global, problem: &Problem) -> Result<Data<F>, DataFault>
        ensures ok { IfOk result (IsDataOf F.value problem.now) }
        ensures held { IfOk result
            (λ form. All (λ q. IsTrue (F.holds q)) (printed_numbers problem.now)) }
        ensures refused { IfErr result (RefusesNumber F.holds problem.now) }
    {
        test_numbers::<F>(alloc, problem)?;
        let matrices = Matrices::of(alloc, problem)?;
        let sides = sides_in(
            alloc,
            matrices.sides.rows.as_slice(),
            matrices.bounds.as_slice(),
        )?;
        let p = lines_in(alloc, matrices.objectives.rows.as_slice())?;
        let cone = cone_in(alloc, &problem.cone)?;
        let duality = duality_in(alloc, &problem.duality)?;
        Ok(Data {
            cols: problem.cols,
            sides,
            p,
            cone,
            duality,
        })
    }
}
