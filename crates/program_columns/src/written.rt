//! The programs of the sides by their columns.
ghost use Rattle.std.specs.Prelude.{◌≡◌, ◌+◌, ◌-◌, ◌<◌, ◌≤◌, ◌++◌, ◌∷◌, ℕ, List, [], length, map, IsTrue, IfOk, IfSome, OnOk, if◌then◌else◌};
ghost use Rattle.std.specs.List.{list_all};
ghost use Rattle.exact_field.specs.Rational.{ℚ, one_ℚ};
ghost use Rattle.polyhedra.specs.Negatives.{negated};
ghost use Rattle.polyhedra.specs.Vectors.{zeros as zero_vector};
ghost use Rattle.tableaux.specs.Table.{artificial_sign};
ghost use Rattle.lin_rows.specs.Clear.{Writes};
ghost use Rattle.lin_rows.specs.Lines.{Rises, entries, last_place};
ghost use Rattle.vlp_problem.specs.Sides.{side_bounds};
ghost use Rattle.vlp_problem.specs.declared.problem.Problem.{Problem as File};
ghost use Rattle.lp_form.specs.Data.{IsDataOf, cone_of};
ghost use Rattle.lp_form.specs.Names.{HasWidths, named};
ghost use Rattle.lp_form.specs.Programs.{benson_system, dual_equations, dual_unknowns, feasible_system, named_system, side_total, weight_system};
ghost use Rattle.lp_form.specs.Shapes.{are_places};
ghost use Rattle.program_columns.specs.Entries.{AreAppended, IsLineWith, IsLonger, across, after_w, benson_equations, given_entry, given_equations, given_row, member, negatives, placed, row_after_w, single, unit_entries, weight_entry, weight_row};
ghost use Rattle.program_columns.specs.Program.{IsProgramOf};
ghost use Rattle.program_columns.specs.Written.{AreGiven, AreOthers, IsAssembled, IsDirect};

use crate::columns::Columns;
use exact_field::{Field, is_negative, is_zero};
use lin_rows::spots::Spot;
use lp_form::{ConeOf, Data, LpName, column, negative, zeros};
use src_sink::{Items, NoMemory};
use std::alloc::Global;

/// The negative of a column.
fn negative_of<F: Field>(alloc: Global, spots: &[Spot<F>]) -> Result<Items<Spot<F>>, NoMemory>
    ensures { IfOk result (λ list. entries F.value list ≡ negatives (entries F.value spots.now)) }
{
    let mut list = Items::new(alloc);
    for spot in spots {
        let at = spot.at;
        let value = spot.value.neg();
        list.push(Spot { at, value })?;
    }
    Ok(list)
}

/// Appends a number at a place, unless it is 0.
fn push_kept<F: Field>(list: &mut Items<Spot<F>>, at: u32, value: F) -> Result<(), NoMemory>
    ensures { OnOk result
        (Writes at (F.value value) (entries F.value list.old) (entries F.value list.new)) }
{
    if is_zero(value) {
        return Ok(());
    }
    list.push(Spot { at, value })
}

/// Appends the numbers of a list at the places after `base`.
fn push_list<F: Field>(list: &mut Items<Spot<F>>, base: u32, numbers: &[F]) -> Result<(), NoMemory>
    requires { base + length numbers.now < 4294967296 }
    ensures { (n : ℕ) → Rises n 0 (entries F.value list.old)
        → last_place 0 (entries F.value list.old) ≤ base → base + length numbers.now ≤ n
        → OnOk result (IsLonger n (base + length numbers.now)
        (placed base (map F.value numbers.now)) (entries F.value list.old)
        (entries F.value list.new)) }
{
    for i in 0..numbers.len() {
        push_kept(list, base + i as u32 + 1, numbers[i])?;
    }
    Ok(())
}

/// How many equations of the cone Benson's program has.
fn cone_equations<F: Field>(form: &Data<F>) -> u32
    ensures count { result ≡ dual_equations (length form.now.p) (cone_of F.value form.now.cone) }
    ensures bound { result ≤ 100000 }
{
    match &form.cone {
        ConeOf::Orthant | ConeOf::Dual(_) => form.p.len() as u32,
        ConeOf::Gens(vectors) => vectors.len() as u32,
    }
}

/// How many unknowns it has after w.
fn cone_unknowns<F: Field>(form: &Data<F>) -> u32
    ensures count { result ≡ dual_unknowns (length form.now.p) (cone_of F.value form.now.cone) }
    ensures bound { result ≤ 100000 }
{
    match &form.cone {
        ConeOf::Orthant => form.p.len() as u32,
        ConeOf::Gens(vectors) | ConeOf::Dual(vectors) => vectors.len() as u32,
    }
}

/// Appends what unknown `i` of w has in the equations of the cone.
fn push_member<F: Field>(
    alloc: Global,
    list: &mut Items<Spot<F>>,
    form: &Data<F>,
    i: u32,
) -> Result<(), NoMemory>
    requires low { 1 ≤ i }
    requires high { i ≤ length form.now.p }
    ensures { (n : ℕ) → Rises n 0 (entries F.value list.old)
        → last_place 0 (entries F.value list.old) ≤ form.now.cols
        → form.now.cols + dual_equations (length form.now.p) (cone_of F.value form.now.cone) ≤ n
        → OnOk result (IsLonger n
        (form.now.cols + dual_equations (length form.now.p) (cone_of F.value form.now.cone))
        (member form.now.cols (cone_of F.value form.now.cone) i) (entries F.value list.old)
        (entries F.value list.new)) }
{
    match &form.cone {
        ConeOf::Orthant | ConeOf::Dual(_) => push_kept(list, form.cols + i, F::one()),
        ConeOf::Gens(vectors) => {
            let numbers = column(alloc, vectors.as_slice(), i)?;
            push_list(list, form.cols, numbers.as_slice())
        }
    }
}

/// The column of unknown `i` of w: the negative of its objective, what it has in the equations of
/// the cone, and its entry of the duality vector.
fn weight_column<F: Field>(
    alloc: Global,
    form: &Data<F>,
    c: &[F],
    i: u32,
) -> Result<Items<Spot<F>>, NoMemory>
    requires low { 1 ≤ i }
    requires high { i ≤ length form.now.p }
    requires c { length c.now ≡ length form.now.p }
    ensures { IfOk result (λ list. IsLineWith (benson_equations F.value form.now)
        (weight_entry F.value form.now c.now i) (entries F.value list)) }
{
    let mut list = negative_of(alloc, form.p.as_slice()[i as usize - 1].as_slice())?;
    push_member(alloc, &mut list, form, i)?;
    let last = form.cols + cone_equations(form) + 1;
    push_kept(&mut list, last, c[i as usize - 1])?;
    Ok(list)
}

/// Appends the columns of the unknowns of w.
fn push_weights<F: Field>(
    alloc: Global,
    list: &mut Items<Items<Spot<F>>>,
    form: &Data<F>,
    c: &[F],
) -> Result<(), NoMemory>
    requires { length c.now ≡ length form.now.p }
    ensures { OnOk result (AreAppended F.value (benson_equations F.value form.now)
        (weight_row F.value form.now c.now) list.old list.new) }
{
    for i in 0..form.p.len() as u32 {
        let spots = weight_column(alloc, form, c, i + 1)?;
        list.push(spots)?;
    }
    Ok(())
}

/// Appends the negative of each column.
fn push_negatives<F: Field>(alloc: Global, list: &mut Items<Items<Spot<F>>>) -> Result<(), NoMemory>
    ensures { (n : ℕ)
        → OnOk result
        (AreAppended F.value n (λ k. negated (across F.value k list.old)) list.old list.new) }
{
    for i in 0..list.len() {
        let spots = negative_of(alloc, list.as_slice()[i].as_slice())?;
        list.push(spots)?;
    }
    Ok(())
}

/// A column of one entry.
fn single_column<F: Field>(alloc: Global, place: u32, value: F) -> Result<Items<Spot<F>>, NoMemory>
    requires { 1 ≤ place }
    ensures { IfOk result (λ list. (n : ℕ) → place ≤ n
        → IsLineWith n (single place (F.value value)) (entries F.value list)) }
{
    let mut list = Items::new(alloc);
    push_kept(&mut list, place, value)?;
    Ok(list)
}

/// A column with the numbers of a list at the places after `base`.
fn list_column<F: Field>(
    alloc: Global,
    base: u32,
    numbers: &[F],
) -> Result<Items<Spot<F>>, NoMemory>
    requires { base + length numbers.now < 4294967296 }
    ensures { IfOk result (λ list. (n : ℕ) → base + length numbers.now ≤ n
        → IsLineWith n (placed base (map F.value numbers.now)) (entries F.value list)) }
{
    let mut list = Items::new(alloc);
    push_list(&mut list, base, numbers)?;
    Ok(list)
}

/// The column of unknown `d` after w.
fn column_after_w<F: Field>(
    alloc: Global,
    form: &Data<F>,
    d: u32,
) -> Result<Items<Spot<F>>, NoMemory>
    requires low { 1 ≤ d }
    requires high { d ≤ dual_unknowns (length form.now.p) (cone_of F.value form.now.cone) }
    ensures { IfOk result (λ list. IsLineWith (benson_equations F.value form.now)
        (after_w form.now.cols (cone_of F.value form.now.cone) d) (entries F.value list)) }
{
    match &form.cone {
        ConeOf::Orthant | ConeOf::Gens(_) => single_column(alloc, form.cols + d, F::one().neg()),
        ConeOf::Dual(vectors) => {
            let numbers = negative(alloc, vectors.as_slice()[d as usize - 1].as_slice())?;
            list_column(alloc, form.cols, numbers.as_slice())
        }
    }
}

/// Appends the columns of the unknowns after w.
fn push_after_w<F: Field>(
    alloc: Global,
    list: &mut Items<Items<Spot<F>>>,
    form: &Data<F>,
) -> Result<(), NoMemory>
    ensures { OnOk result (AreAppended F.value (benson_equations F.value form.now)
        (row_after_w F.value form.now) list.old list.new) }
{
    for d in 0..cone_unknowns(form) {
        let spots = column_after_w(alloc, form, d + 1)?;
        list.push(spots)?;
    }
    Ok(())
}

/// The columns of Benson's program that are not those of the sides.
fn list_others<F: Field>(
    alloc: Global,
    form: &Data<F>,
    c: &[F],
) -> Result<Items<Items<Spot<F>>>, NoMemory>
    requires { length c.now ≡ length form.now.p }
    ensures { IfOk result (AreOthers F.value form.now c.now) }
{
    let mut list = Items::new(alloc);
    push_weights(alloc, &mut list, form, c)?;
    push_negatives(alloc, &mut list)?;
    push_after_w(alloc, &mut list, form)?;
    Ok(list)
}

/// 1 with the sign that the artificial column has at an equation with this right side.
fn signed_one<F: Field>(right: F) -> F
    ensures { F.value result ≡ artificial_sign (F.value right) }
{
    if is_negative(right) {
        F::one().neg()
    } else {
        F::one()
    }
}

/// The artificial columns, of one entry each.
fn units<F: Field>(alloc: Global, right: &[F]) -> Result<Items<Spot<F>>, NoMemory>
    requires { length right.now < 4294967296 }
    ensures { IfOk result
        (λ units. entries F.value units ≡ unit_entries 0 (map F.value right.now)) }
{
    let mut units = Items::new(alloc);
    for i in 0..right.len() {
        let at = i as u32 + 1;
        let value = signed_one(right[i]);
        units.push(Spot { at, value })?;
    }
    Ok(units)
}

/// The program of these columns after those of the sides.
fn assemble<'a, F: Field>(
    alloc: Global,
    form: &'a Data<F>,
    others: Items<Items<Spot<F>>>,
    right: Items<F>,
    cost: Items<F>,
) -> Result<Columns<'a, F>, NoMemory>
    requires unknowns { length form.now.sides + length others ≡ length cost }
    requires equations { form.now.cols ≤ length right }
    requires places { IsTrue (list_all (are_places (length right) 0) others) }
    ensures { IfOk result (IsAssembled F.value form.now others right cost) }
{
    let units = units(alloc, right.as_slice())?;
    Ok(Columns {
        sides: form.sides.as_slice(),
        others,
        units,
        right,
        cost,
    })
}

/// Appends the bounds of the sides, or zeros.
fn side_costs<F: Field>(alloc: Global, form: &Data<F>, bounds: bool) -> Result<Items<F>, NoMemory>
    ensures long { IfOk result (λ cost. length cost ≡ length form.now.sides) }
    ensures costs { (file : File) → IsDataOf F.value file form.now
        → IfOk result (λ cost. map F.value cost
        ≡ (if bounds then side_bounds file else zero_vector (side_total file))) }
{
    if !bounds {
        return zeros(alloc, form.sides.len() as u32);
    }
    let mut cost = Items::new(alloc);
    for side in form.sides.as_slice() {
        cost.push(side.beta)?;
    }
    Ok(cost)
}

/// The costs of Benson's program at `v`.
fn benson_cost<F: Field>(
    alloc: Global,
    form: &Data<F>,
    v: &[F],
    t: bool,
) -> Result<Items<F>, NoMemory>
    requires { length v.now ≡ length form.now.p }
    ensures long { IfOk result (λ cost. length cost
        ≡ length form.now.sides + length form.now.p + length form.now.p
        + dual_unknowns (length form.now.p) (cone_of F.value form.now.cone)) }
    ensures costs { (file : File) → IsDataOf F.value file form.now
        → IfOk result
        (λ cost. map F.value cost ≡ (benson_system file [] (map F.value v.now) t).cost) }
{
    let mut cost = side_costs(alloc, form, t)?;
    let minus = negative(alloc, v)?;
    cost.append(minus.as_slice())?;
    cost.append(v)?;
    let after = zeros(alloc, cone_unknowns(form))?;
    cost.append(after.as_slice())?;
    Ok(cost)
}

/// The right sides of Benson's program.
fn benson_right<F: Field>(alloc: Global, form: &Data<F>) -> Result<Items<F>, NoMemory>
    ensures { IfOk result (λ right. map F.value right
        ≡ zero_vector
        (form.now.cols + dual_equations (length form.now.p) (cone_of F.value form.now.cone))
        ++ one_ℚ ∷ []) }
{
    let mut right = zeros(alloc, form.cols + cone_equations(form))?;
    right.push(F::one())?;
    Ok(right)
}

/// Whether the sides contradict each other.
fn feasible_columns<'a, F: Field>(
    alloc: Global,
    form: &'a Data<F>,
) -> Result<Columns<'a, F>, NoMemory>
    ensures { (file : File) → IsDataOf F.value file form.now
        → IfOk result (IsProgramOf F.value (feasible_system file)) }
{
    let cost = side_costs(alloc, form, true)?;
    let right = zeros(alloc, form.cols)?;
    assemble(alloc, form, Items::new(alloc), right, cost)
}

/// Benson's program at `v`.
fn benson_columns<'a, F: Field>(
    alloc: Global,
    form: &'a Data<F>,
    c: &[F],
    v: &[F],
    t: bool,
) -> Result<Columns<'a, F>, NoMemory>
    requires c { length c.now ≡ length form.now.p }
    requires v { length v.now ≡ length form.now.p }
    ensures { (file : File) → IsDataOf F.value file form.now
        → IfOk result
        (IsProgramOf F.value (benson_system file (map F.value c.now) (map F.value v.now) t)) }
{
    let cost = benson_cost(alloc, form, v, t)?;
    let right = benson_right(alloc, form)?;
    let others = list_others(alloc, form, c)?;
    assemble(alloc, form, others, right, cost)
}

/// The column of unknown `i` of w in the program of a weight: the negative of its objective, and 1
/// in the equation that gives its entry.
fn given_column<F: Field>(alloc: Global, form: &Data<F>, i: u32) -> Result<Items<Spot<F>>, NoMemory>
    requires low { 1 ≤ i }
    requires high { i ≤ length form.now.p }
    ensures { IfOk result (λ list. IsLineWith (given_equations form.now)
        (given_entry F.value form.now i) (entries F.value list)) }
{
    let mut list = negative_of(alloc, form.p.as_slice()[i as usize - 1].as_slice())?;
    push_kept(&mut list, form.cols + i, F::one())?;
    Ok(list)
}

/// Appends the columns of the unknowns of w in the program of a weight.
fn push_given<F: Field>(
    alloc: Global,
    list: &mut Items<Items<Spot<F>>>,
    form: &Data<F>,
) -> Result<(), NoMemory>
    ensures { OnOk result (AreAppended F.value (given_equations form.now)
        (given_row F.value form.now) list.old list.new) }
{
    for i in 0..form.p.len() as u32 {
        let spots = given_column(alloc, form, i + 1)?;
        list.push(spots)?;
    }
    Ok(())
}

/// The columns of the program of a weight that are not those of the sides.
fn list_given<F: Field>(alloc: Global, form: &Data<F>) -> Result<Items<Items<Spot<F>>>, NoMemory>
    ensures { IfOk result (AreGiven F.value form.now) }
{
    let mut list = Items::new(alloc);
    push_given(alloc, &mut list, form)?;
    push_negatives(alloc, &mut list)?;
    Ok(list)
}

/// The costs of the program of a weight, where the cone is not in dual form.
fn weight_cost<F: Field>(alloc: Global, form: &Data<F>) -> Result<Items<F>, NoMemory>
    requires { IsDirect (cone_of F.value form.now.cone) }
    ensures long { IfOk result (λ cost. length cost
        ≡ length form.now.sides + length form.now.p + length form.now.p) }
    ensures costs { (file : File) (w : List ℚ) → IsDataOf F.value file form.now
        → IfOk result (λ cost. map F.value cost ≡ (weight_system file w).cost) }
{
    let mut cost = side_costs(alloc, form, true)?;
    let no_cost = zeros(alloc, form.p.len() as u32)?;
    cost.append(no_cost.as_slice())?;
    cost.append(no_cost.as_slice())?;
    Ok(cost)
}

/// The right sides of the program of a weight.
fn weight_right<F: Field>(alloc: Global, form: &Data<F>, w: &[F]) -> Result<Items<F>, NoMemory>
    ensures { IfOk result
        (λ right. map F.value right ≡ zero_vector form.now.cols ++ map F.value w.now) }
{
    let mut right = zeros(alloc, form.cols)?;
    right.append(w)?;
    Ok(right)
}

/// The program of the weight `w`, where the cone is not in dual form.
fn given_columns<'a, F: Field>(
    alloc: Global,
    form: &'a Data<F>,
    w: &[F],
) -> Result<Columns<'a, F>, NoMemory>
    requires direct { IsDirect (cone_of F.value form.now.cone) }
    requires w { length w.now ≡ length form.now.p }
    ensures { (file : File) → IsDataOf F.value file form.now
        → IfOk result (IsProgramOf F.value (weight_system file (map F.value w.now))) }
{
    let cost = weight_cost(alloc, form)?;
    let right = weight_right(alloc, form, w)?;
    let others = list_given(alloc, form)?;
    assemble(alloc, form, others, right, cost)
}

/// The program of the weight `w`: none where the cone is in dual form.
fn weight_columns<'a, F: Field>(
    alloc: Global,
    form: &'a Data<F>,
    w: &[F],
) -> Result<Option<Columns<'a, F>>, NoMemory>
    requires { length w.now ≡ length form.now.p }
    ensures { (file : File) → IsDataOf F.value file form.now
        → IfOk result (λ o. IfSome o
        (IsProgramOf F.value (weight_system file (map F.value w.now)))) }
{
    match &form.cone {
        ConeOf::Orthant | ConeOf::Gens(_) => Ok(Some(given_columns(alloc, form, w)?)),
        ConeOf::Dual(_) => Ok(None),
    }
}

/// A named program by its columns: none for the programs of the cone, and for that of a weight
/// where the cone is in dual form.
pub fn columns_of<'a, F: Field>(
    alloc: Global,
    form: &'a Data<F>,
    c: &[F],
    name: &LpName<F>,
) -> Result<Option<Columns<'a, F>>, NoMemory>
    requires { HasWidths (length form.now.p) c.now name.now }
    ensures { (file : File) → IsDataOf F.value file form.now
        → IfOk result (λ o. IfSome o (IsProgramOf F.value
        (named_system file (map F.value c.now) (named F.value name.now)))) }
{
    match name {
        LpName::Feasible => Ok(Some(feasible_columns(alloc, form)?)),
        LpName::Benson { v, t } => Ok(Some(benson_columns(alloc, form, c, v.as_slice(), *t)?)),
        LpName::Weight { w } => weight_columns(alloc, form, w.as_slice()),
        LpName::Interior | LpName::Pointed => Ok(None),
    }
}
