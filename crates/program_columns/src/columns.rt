//! Linear programs by their columns.
ghost use Rattle.std.specs.Prelude.{◌≡◌, ◌+◌, ◌-◌, ◌≤◌, [], length, IsTrue, slice_index_or};
ghost use Rattle.std.specs.List.{list_all};
ghost use Rattle.lp_form.specs.Shapes.{are_places};
ghost use Rattle.program_columns.specs.Columns.{all_columns};

use exact_field::Field;
use lin_rows::spots::Spot;
use lp_form::SideOf;
use src_sink::Items;

/// A linear program in equations by its columns, of which each keeps only its entries that are not
/// 0.
#[derive(Drop)]
pub struct Columns<'a, F: Drop> {
    /// The first unknowns have the vectors of these sides.
    pub sides: &'a [SideOf<F>],
    /// The columns of the other unknowns.
    pub others: Items<Items<Spot<F>>>,
    /// The artificial columns, of one entry each.
    pub units: Items<Spot<F>>,
    /// The right side of each equation.
    pub right: Items<F>,
    /// The cost of each unknown.
    pub cost: Items<F>,
    ghost unknowns: { length sides.now + length others ≡ length cost },
    ghost artificial: { length units ≡ length right },
    ghost places: { IsTrue
        (list_all (are_places (length right) 0) (all_columns sides.now others units)) },
}

impl<'a, F: Field> Columns<'a, F> {
    ghost use Rattle.std.specs.Prelude.{ℕ, map, IfSome};
    ghost use Rattle.exact_field.specs.Vector.{entry};
    ghost use Rattle.tableaux.specs.Table.{at};
    ghost use Rattle.lin_rows.specs.Lines.{entries, sum_at};
    ghost use Rattle.program_columns.specs.Program.{AreInRange, vectors_in};

    /// The cost of column `k`: 0 for an artificial one.
    pub fn cost_at(&self, k: usize) -> F
        requires { 1 ≤ k }
        ensures { F.value result ≡ entry (map F.value self.now.cost) k }
    {
        if k <= self.cost.len() {
            self.cost.as_slice()[k - 1]
        } else {
            F::zero()
        }
    }

    /// Column `k`: those of the unknowns, and after them the artificial ones.
    pub fn column(&self, k: usize) -> &[Spot<F>]
        requires low { 1 ≤ k }
        requires high { k ≤ length self.now.cost + length self.now.right }
        ensures spots { result.now
            ≡ slice_index_or (all_columns self.now.sides.now self.now.others self.now.units) (k - 1)
            [] }
        ensures places { IsTrue (are_places (length self.now.right) 0 result.now) }
    {
        let k = k - 1;
        if k < self.sides.len() {
            return self.sides[k].g.as_slice();
        }
        let k = k - self.sides.len();
        if k < self.others.len() {
            return self.others.as_slice()[k].as_slice();
        }
        let k = k - self.others.len();
        &self.units.as_slice()[k..k + 1]
    }

    /// The column that stands at place `k` of a list, from 1: none where no column stands there.
    pub fn find_listed(&self, columns: &[u32], k: u32) -> Option<&[Spot<F>]>
        requires { AreInRange self.now columns.now }
        ensures place { IfSome result (λ spots. (1 ≤ k) × (k ≤ length columns.now)) }
        ensures places { IfSome result
            (λ spots. IsTrue (are_places (length self.now.right) 0 spots.now)) }
        ensures entries { IfSome result (λ spots. (j : ℕ) → 1 ≤ j → j ≤ length self.now.right
            → at (vectors_in F.value self.now columns.now) k j
            ≡ sum_at (entries F.value spots.now) j) }
    {
        if k == 0 {
            return None;
        }
        if k as usize > columns.len() {
            return None;
        }
        Some(self.column(columns[k as usize - 1] as usize))
    }
}
