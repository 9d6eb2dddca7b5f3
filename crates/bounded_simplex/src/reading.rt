//! The basis of the large program that a basis of the small one names, and what is read off it.
use crate::meaning::{Bound, Dual, Kind, Meaning};
use exact_field::{Field, is_zero};
use listed_columns::{Basis, Layout, Ordered, magnitude, number_of, part, place_of};
use lp_form::{ConeOf, Data};
use shown_bases::{EmptyGuess, EndGuess, Guess, RayGuess};
use src_sink::Items;
use whole_programs::{Failing, Place, Simplex, Stop, at, item, put};

/// The side of two bounds that a cost asks for, or that a variable stands at.
fn side_of(low: Option<Bound>, high: Option<Bound>, sign: i8, place: Place) -> Option<usize> {
    match (low, high) {
        (None, None) => None,
        (Some(low), None) => Some(low.side),
        (None, Some(high)) => Some(high.side),
        (Some(low), Some(high)) => {
            if sign < 0 || sign == 0 && place == Place::High {
                Some(high.side)
            } else {
                Some(low.side)
            }
        }
    }
}

/// The weight vector that is read off so far: for the cone's dual form the combination of its
/// vectors.
fn add_weights<F: Field>(
    form: &Data<F>,
    weights: &mut [F],
    number: usize,
    value: F,
) -> Result<(), Stop> {
    let vectors = match &form.cone {
        ConeOf::Orthant | ConeOf::Gens(_) => return put(weights, number, value),
        ConeOf::Dual(vectors) => vectors.as_slice(),
    };
    let vector = item(vectors, number)?.as_slice();
    for (weight, entry) in weights.iter_mut().zip(vector) {
        if !is_zero(*entry) {
            *weight = weight.add(value.mul(*entry)?)?;
        }
    }
    Ok(())
}

impl<S: Drop> Dual<S> {
    /// The columns of the large program that the variables outside the basis name, with the number
    /// of each variable.
    fn basis<'a, F: Field>(
        &self,
        form: &'a Data<F>,
        c: &[F],
        layout: Layout,
        numbers: &[F],
    ) -> Result<Basis<'a, F>, Stop>
    where
        S: Simplex<F>,
    {
        let mut basis = Basis::new(self.alloc, form, layout);
        let mut weights = vec![in self.alloc; F::zero(); form.p.len()]?;
        self.push_columns(&mut basis, c, &mut weights, numbers)?;
        if layout.equations > layout.cone {
            push_all_weights(&mut basis, c, &weights)?;
        }
        Ok(basis)
    }

    /// The columns of the program of a weight that the variables outside the basis name, and those
    /// of the weight.
    fn basis_at<'a, F: Field>(
        &self,
        form: &'a Data<F>,
        w: &[F],
        numbers: &[F],
    ) -> Result<Basis<'a, F>, Stop>
    where
        S: Simplex<F>,
    {
        let mut basis = Basis::new(self.alloc, form, Layout::of_weight(form));
        let mut no_weights = Vec::new(self.alloc);
        self.push_columns(&mut basis, &[], &mut no_weights, numbers)?;
        for (i, weight) in w.iter().enumerate() {
            basis.push_given(i, *weight)?;
        }
        Ok(basis)
    }

    /// The columns that the variables name that are not basic.
    fn push_columns<F: Field>(
        &self,
        basis: &mut Basis<'_, F>,
        c: &[F],
        weights: &mut [F],
        numbers: &[F],
    ) -> Result<(), Stop>
    where
        S: Simplex<F>,
    {
        for (variable, meaning) in self.meanings.iter().enumerate() {
            let place = self.solver.place(variable)?;
            if place != Place::Basic {
                push_column(basis, c, weights, meaning, place, at(numbers, variable)?)?;
            }
        }
        Ok(())
    }

    /// The cost of each variable that is not basic.
    fn costs<F: Field>(&self) -> Result<Vec<F>, Stop>
    where
        S: Simplex<F>,
    {
        let mut costs = Vec::new(self.alloc);
        for variable in 0..self.meanings.len() {
            let cost = if self.solver.place(variable)? == Place::Basic {
                F::zero()
            } else {
                self.solver.cost(variable)?
            };
            costs.push(cost)?;
        }
        Ok(costs)
    }

    /// A 0 for each variable.
    fn zeros<F: Field>(&self) -> Result<Vec<F>, Stop> {
        Ok(vec![in self.alloc; F::zero(); self.meanings.len()]?)
    }

    /// What each variable that is not basic has in the row of a failing one, with the sign that is
    /// above 0 where the bound from below holds the failing one back.
    fn entries<F: Field>(&self, failing: Failing) -> Result<Vec<F>, Stop>
    where
        S: Simplex<F>,
    {
        let mut entries = Vec::new(self.alloc);
        for variable in 0..self.meanings.len() {
            let entry = if self.solver.place(variable)? == Place::Basic {
                F::zero()
            } else {
                self.solver.entry(failing, variable)?
            };
            entries.push(if failing.below { entry } else { entry.neg() })?;
        }
        Ok(entries)
    }

    /// The value of each variable but those of sides, for which it is 0.
    fn values<F: Field>(&self) -> Result<Vec<F>, Stop>
    where
        S: Simplex<F>,
    {
        let mut asked = Vec::new(self.alloc);
        for meaning in &self.meanings {
            asked.push(meaning.kind != Kind::Side)?;
        }
        self.solver.values(&asked)
    }

    /// The multipliers of the equations of the file's columns.
    fn choice<F: Field>(&self, form: &Data<F>, values: &[F]) -> Result<Items<F>, Stop> {
        let mut y = Items::new(self.alloc);
        y.append(part(values, 0, form.cols as usize)?)?;
        Ok(y)
    }

    /// The multipliers of the equations of Benson's program.
    fn multipliers<F: Field>(&self, form: &Data<F>, c: &[F], v: &[F]) -> Result<Items<F>, Stop>
    where
        S: Simplex<F>,
    {
        let values = self.values()?;
        let mut y = self.choice(form, &values)?;
        let share = at(&values, form.cols as usize)?;
        match &form.cone {
            ConeOf::Orthant => self.push_gaps(&mut y, &values, v)?,
            ConeOf::Gens(vectors) => {
                for value in part(&values, self.multipliers, vectors.len())? {
                    y.push(value.neg())?;
                }
            }
            ConeOf::Dual(_) => push_products(&mut y, form, c, v, share)?,
        }
        y.push(share)?;
        Ok(y)
    }

    /// Appends by how much each variable of an objective is above its bound.
    fn push_gaps<F: Field>(&self, y: &mut Items<F>, values: &[F], v: &[F]) -> Result<(), Stop> {
        for (value, bound) in part(values, self.objectives, v.len())?.iter().zip(v) {
            y.push(value.sub(*bound)?)?;
        }
        Ok(())
    }

    /// The multipliers of the equations of the program of a weight: those of the entries of w are
    /// the values of the objectives.
    fn multipliers_of_weight<F: Field>(&self, form: &Data<F>) -> Result<Items<F>, Stop>
    where
        S: Simplex<F>,
    {
        let values = self.values()?;
        let mut y = self.choice(form, &values)?;
        y.append(part(&values, self.objectives, form.p.len())?)?;
        Ok(y)
    }

    /// The guess at the optimum of the program of a weight.
    pub(crate) fn guess_weight<F: Field>(
        &self,
        form: &Data<F>,
        w: &[F],
    ) -> Result<EndGuess<F>, Stop>
    where
        S: Simplex<F>,
    {
        let y = self.multipliers_of_weight(form)?;
        let basis = self.basis_at(form, w, &self.costs()?)?;
        Ok(optimum(basis.ordered(self.alloc)?, y))
    }

    /// The guess that the program of a weight has no solution, from the end of the first phase.
    pub(crate) fn guess_no_weight<F: Field>(
        &self,
        form: &Data<F>,
        w: &[F],
    ) -> Result<EndGuess<F>, Stop>
    where
        S: Simplex<F>,
    {
        let y = self.multipliers_of_weight(form)?;
        let basis = self.basis_at(form, w, &self.zeros()?)?;
        Ok(empty(basis.ordered(self.alloc)?, y))
    }

    /// The guess at the optimum of Benson's program.
    pub(crate) fn guess<F: Field>(
        &self,
        form: &Data<F>,
        c: &[F],
        v: &[F],
    ) -> Result<EndGuess<F>, Stop>
    where
        S: Simplex<F>,
    {
        let y = self.multipliers(form, c, v)?;
        let basis = self.basis(form, c, Layout::of_benson(form), &self.costs()?)?;
        Ok(optimum(basis.ordered(self.alloc)?, y))
    }

    /// The guess that Benson's program has no solution, from the end of the first phase.
    pub(crate) fn guess_none<F: Field>(&self, form: &Data<F>, c: &[F]) -> Result<EndGuess<F>, Stop>
    where
        S: Simplex<F>,
    {
        let v = vec![in self.alloc; F::zero(); form.p.len()]?;
        let y = self.multipliers(form, c, &v)?;
        let basis = self.basis(form, c, Layout::of_benson(form), &self.zeros()?)?;
        Ok(empty(basis.ordered(self.alloc)?, y))
    }

    /// The guess at a point of the sides.
    pub(crate) fn guess_point<F: Field>(&self, form: &Data<F>) -> Result<EndGuess<F>, Stop>
    where
        S: Simplex<F>,
    {
        let y = self.choice(form, &self.values()?)?;
        let basis = self.basis(form, &[], Layout::of_sides(form), &self.costs()?)?;
        Ok(optimum(basis.ordered(self.alloc)?, y))
    }

    /// The guess that the sides contradict each other, by the row of a failing variable: the side
    /// of its bound, and those of the variables that hold it back.
    pub(crate) fn guess_contradiction<F: Field>(
        &self,
        form: &Data<F>,
        failing: Failing,
    ) -> Result<EndGuess<F>, Stop>
    where
        S: Simplex<F>,
    {
        let col = number_of(0, self.failing_side(failing)?)?;
        let basis = self.basis(form, &[], Layout::of_sides(form), &self.entries(failing)?)?;
        let Ordered {
            columns,
            numbers,
            order,
        } = basis.ordered(self.alloc)?;
        let mut x = Items::new(self.alloc);
        for _k in 0..columns.len() {
            x.push(F::zero())?;
        }
        Ok(EndGuess::Ray(RayGuess {
            columns,
            x,
            col,
            changes: numbers,
            order,
        }))
    }

    /// The side of the bound that a variable is beyond.
    fn failing_side(&self, failing: Failing) -> Result<usize, Stop> {
        let meaning = at(&self.meanings, failing.variable)?;
        let bound = if failing.below {
            meaning.low
        } else {
            meaning.high
        };
        Ok(bound.ok_or(Stop::Declined)?.side)
    }
}

/// The guess of an optimum.
fn optimum<F: Field>(ordered: Ordered<F>, y: Items<F>) -> EndGuess<F> {
    let Ordered {
        columns,
        numbers,
        order,
    } = ordered;
    EndGuess::Optimum(Guess {
        columns,
        x: numbers,
        y,
        order,
    })
}

/// The guess that there is no solution.
fn empty<F: Field>(ordered: Ordered<F>, y: Items<F>) -> EndGuess<F> {
    let Ordered {
        columns,
        numbers: _,
        order,
    } = ordered;
    EndGuess::Empty(EmptyGuess { columns, y, order })
}

/// The column that a variable outside the basis names, with its number.
fn push_column<F: Field>(
    basis: &mut Basis<'_, F>,
    c: &[F],
    weights: &mut [F],
    meaning: &Meaning,
    place: Place,
    value: F,
) -> Result<(), Stop> {
    let number = meaning.number;
    match meaning.kind {
        Kind::Column | Kind::Side => {
            match side_of(meaning.low, meaning.high, value.sign(), place) {
                Some(side) => basis.push_side(side, magnitude(value)),
                None => basis.push_artificial(number),
            }
        }
        Kind::Share => {
            let last = basis.layout.equations.saturating_sub(1);
            basis.push_artificial(last)
        }
        Kind::Multiplier => basis.push_unknown(number, value),
        Kind::Objective => push_objective(basis, c, weights, number, value.neg()),
        Kind::Value => basis.push_artificial(basis.layout.cone.saturating_add(number)),
    }
}

/// The column that a variable of the objectives names.
fn push_objective<F: Field>(
    basis: &mut Basis<'_, F>,
    c: &[F],
    weights: &mut [F],
    number: usize,
    value: F,
) -> Result<(), Stop> {
    if let ConeOf::Gens(_) = &basis.form.cone {
        return basis.push_weight(c, number, value);
    }
    add_weights(basis.form, weights, number, value)?;
    basis.push_unknown(number, value)
}

/// The columns of the weight vector, where the cone's generators name none.
fn push_all_weights<F: Field>(
    basis: &mut Basis<'_, F>,
    c: &[F],
    weights: &[F],
) -> Result<(), Stop> {
    if let ConeOf::Gens(_) = &basis.form.cone {
        return Ok(());
    }
    for (i, weight) in weights.iter().enumerate() {
        basis.push_weight(c, i, *weight)?;
    }
    Ok(())
}

/// Appends for each objective its product with the choice, less `v` and the share of the duality
/// vector.
fn push_products<F: Field>(
    y: &mut Items<F>,
    form: &Data<F>,
    c: &[F],
    v: &[F],
    share: F,
) -> Result<(), Stop> {
    for (i, objective) in form.p.as_slice().iter().enumerate() {
        let offset = at(v, i)?.add(share.mul(at(c, i)?)?)?;
        let mut sum = offset.neg();
        for spot in objective.as_slice() {
            let x = at(y.as_slice(), place_of(spot))?;
            if !is_zero(x) {
                sum = sum.add(spot.value.mul(x)?)?;
            }
        }
        y.push(sum)?;
    }
    Ok(())
}
