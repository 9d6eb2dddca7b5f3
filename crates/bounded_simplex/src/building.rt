//! The duals of Benson's program and of that of a weight, and their part on the sides alone.
use crate::meaning::{Bound, Dual, Kind, Meaning};
use exact_field::{Field, is_zero};
use listed_columns::place_of;
use lp_form::{At, ConeOf, Data, SideOf};
use src_sink::Items;
use std::alloc::Global;
use whole_programs::{Program, Ratio, Simplex, Stop, Term, at, item, put};

/// Whether a vector is the negative of another.
fn are_opposite<F: Field>(one: &[At<F>], other: &[At<F>]) -> bool {
    if one.len() != other.len() {
        return false;
    }
    for (x, y) in one.iter().zip(other) {
        if x.at != y.at || x.value != y.value.neg() {
            return false;
        }
    }
    true
}

/// The column that a side bounds alone, by its number from 0, and whether from below.
fn bounded_column<F: Field>(g: &[At<F>]) -> Option<(usize, bool)> {
    let [spot] = g else {
        return None;
    };
    if spot.value == F::one() {
        Some((place_of(spot), true))
    } else if spot.value == F::one().neg() {
        Some((place_of(spot), false))
    } else {
        None
    }
}

/// Appends the terms of a vector on the columns.
fn push_vector<F: Field>(terms: &mut Vec<Term<F>>, vector: &[At<F>]) -> Result<(), Stop> {
    for spot in vector {
        terms.push(Term {
            at: place_of(spot),
            value: spot.value,
        })?;
    }
    Ok(())
}

/// Appends a term, unless it is 0.
fn push_term<F: Field>(terms: &mut Vec<Term<F>>, at: usize, value: F) -> Result<(), Stop> {
    if !is_zero(value) {
        terms.push(Term { at, value })?;
    }
    Ok(())
}

/// Appends what the generators of a cone have at objective `i`.
fn push_generators<F: Field>(
    terms: &mut Vec<Term<F>>,
    cone: &ConeOf<F>,
    multipliers: usize,
    i: usize,
) -> Result<(), Stop> {
    let vectors = match cone {
        ConeOf::Orthant | ConeOf::Dual(_) => return Ok(()),
        ConeOf::Gens(vectors) => vectors.as_slice(),
    };
    for (g, vector) in vectors.iter().enumerate() {
        let value = at(vector.as_slice(), i)?;
        push_term(terms, multipliers.saturating_add(g), value)?;
    }
    Ok(())
}

/// What was calculated: none where it was declined.
fn unless_declined<T>(value: Result<T, Stop>) -> Result<Option<T>, Stop> {
    match value {
        Ok(value) => Ok(Some(value)),
        Err(Stop::Declined) => Ok(None),
        Err(Stop::NoMemory) => Err(Stop::NoMemory),
    }
}

/// A program that is being written, with what its variables stand for.
#[derive(Debug, Drop)]
struct Draft {
    alloc: Global,
    program: Program,
    meanings: Vec<Meaning>,
}

/// The part of the dual that is on the sides alone, which minimises nothing.
pub(crate) fn dual_of_sides<F: Field, S: Simplex<F> + Drop>(
    alloc: Global,
    form: &Data<F>,
) -> Result<Dual<S>, Stop> {
    let mut draft = Draft::new(alloc);
    draft.push_variables(Kind::Column, form.cols as usize)?;
    draft.push_sides(form)?;
    draft.dual::<F, S>(0, 0)
}

/// The dual of Benson's program, which minimises the share of the duality vector.
pub(crate) fn dual_of_benson<F: Field, S: Simplex<F> + Drop>(
    alloc: Global,
    form: &Data<F>,
    c: &[F],
) -> Result<Dual<S>, Stop> {
    let share = form.cols as usize;
    let mut draft = Draft::new(alloc);
    draft.push_variables(Kind::Column, share)?;
    draft.push_variables(Kind::Share, 1)?;
    let multipliers = draft.meanings.len();
    draft.push_multipliers(&form.cone)?;
    draft.push_sides(form)?;
    let objectives = draft.meanings.len();
    draft.push_cone(form, c, multipliers)?;
    let mut dual = draft.dual::<F, S>(multipliers, objectives)?;
    dual.solver.minimise(share)?;
    Ok(dual)
}

/// The dual of the program of a weight, which minimises a sum of the objectives. The sum is not set
/// yet.
pub(crate) fn dual_of_weight<F: Field, S: Simplex<F> + Drop>(
    alloc: Global,
    form: &Data<F>,
) -> Result<Dual<S>, Stop> {
    let mut draft = Draft::new(alloc);
    draft.push_variables(Kind::Column, form.cols as usize)?;
    draft.push_sides(form)?;
    let objectives = draft.meanings.len();
    draft.push_values(form)?;
    draft.dual::<F, S>(0, objectives)
}

impl Draft {
    fn new(alloc: Global) -> Draft {
        Draft {
            alloc,
            program: Program::new(alloc),
            meanings: Vec::new(alloc),
        }
    }

    /// The program at the basis of its rows' variables.
    fn dual<F: Field, S: Simplex<F> + Drop>(
        self,
        multipliers: usize,
        objectives: usize,
    ) -> Result<Dual<S>, Stop> {
        let Draft {
            alloc,
            program,
            meanings,
        } = self;
        Ok(Dual {
            alloc,
            solver: S::new(alloc, program)?,
            meanings,
            multipliers,
            objectives,
        })
    }

    /// Appends variables that are not the values of rows.
    fn push_variables(&mut self, kind: Kind, count: usize) -> Result<(), Stop> {
        for number in 0..count {
            let _variable = self.program.push_variable()?;
            self.meanings.push(Meaning::new(kind, number))?;
        }
        Ok(())
    }

    /// Appends a row, and answers its variable.
    fn push_row<F: Field>(
        &mut self,
        kind: Kind,
        number: usize,
        terms: &[Term<F>],
    ) -> Result<usize, Stop> {
        let variable = self.program.push_row(terms)?;
        self.meanings.push(Meaning::new(kind, number))?;
        Ok(variable)
    }

    fn push_multipliers<F: Field>(&mut self, cone: &ConeOf<F>) -> Result<(), Stop> {
        match cone {
            ConeOf::Orthant | ConeOf::Dual(_) => Ok(()),
            ConeOf::Gens(vectors) => self.push_variables(Kind::Multiplier, vectors.len()),
        }
    }

    /// The rows that say in which cone the objectives are.
    fn push_cone<F: Field>(
        &mut self,
        form: &Data<F>,
        c: &[F],
        multipliers: usize,
    ) -> Result<(), Stop> {
        match &form.cone {
            ConeOf::Orthant | ConeOf::Gens(_) => self.push_objectives(form, c, multipliers),
            ConeOf::Dual(vectors) => self.push_products(form, c, vectors.as_slice()),
        }
    }

    /// The sides, of which two that bound one product from both ends are one row, and one that
    /// bounds a column is none. One with a number that is too long is left out.
    fn push_sides<F: Field>(&mut self, form: &Data<F>) -> Result<(), Stop> {
        let mut last = None;
        for (h, side) in form.sides.as_slice().iter().enumerate() {
            last = self.push_side(h, side, last)?;
        }
        Ok(())
    }

    /// One side, after another whose row has no bound from above yet. The variable and the vector
    /// of its own row, if it has one of which the same is true.
    fn push_side<'a, F: Field>(
        &mut self,
        h: usize,
        side: &'a SideOf<F>,
        last: Option<(usize, &'a [At<F>])>,
    ) -> Result<Option<(usize, &'a [At<F>])>, Stop> {
        let g = side.g.as_slice();
        if self.bound_column(g, h, side.beta)? {
            return Ok(None);
        }
        if let Some((variable, before)) = last
            && are_opposite(before, g)
        {
            self.bound(variable, h, side.beta, false)?;
            return Ok(None);
        }
        let mut terms = Vec::new(self.alloc);
        push_vector(&mut terms, g)?;
        let Some(variable) = unless_declined(self.push_row(Kind::Side, h, &terms))? else {
            return Ok(None);
        };
        self.bound(variable, h, side.beta, true)?;
        Ok(Some((variable, g)))
    }

    /// Makes a side the bound of a column, if it is one and the column has none of its kind yet,
    /// and answers whether it did.
    fn bound_column<F: Field>(&mut self, g: &[At<F>], h: usize, beta: F) -> Result<bool, Stop> {
        let Some((column, below)) = bounded_column(g) else {
            return Ok(false);
        };
        let meaning = at(&self.meanings, column)?;
        let taken = if below { meaning.low } else { meaning.high };
        if taken.is_some() {
            return Ok(false);
        }
        self.bound(column, h, beta, below)?;
        Ok(true)
    }

    /// Gives a variable the bound of a side, which is one from above of its negative otherwise,
    /// unless the bound is too long.
    fn bound<F: Field>(
        &mut self,
        variable: usize,
        side: usize,
        beta: F,
        below: bool,
    ) -> Result<(), Stop> {
        let mut meaning = at(&self.meanings, variable)?;
        let scale = self.program.scale(variable)?;
        let beta = if below { beta } else { beta.neg() };
        let Some(value) = unless_declined(Ratio::times(beta, scale))? else {
            return Ok(());
        };
        let bound = Some(Bound { side, value });
        if below {
            meaning.low = bound;
        } else {
            meaning.high = bound;
        }
        put(&mut self.meanings, variable, meaning)
    }

    /// The rows of the objectives: each less its share of the duality vector, with the multipliers
    /// of the generators.
    fn push_objectives<F: Field>(
        &mut self,
        form: &Data<F>,
        c: &[F],
        multipliers: usize,
    ) -> Result<(), Stop> {
        for (i, objective) in form.p.as_slice().iter().enumerate() {
            let mut terms = Vec::new(self.alloc);
            push_vector(&mut terms, objective.as_slice())?;
            push_term(&mut terms, form.cols as usize, at(c, i)?.neg())?;
            push_generators(&mut terms, &form.cone, multipliers, i)?;
            let _variable = self.push_row(Kind::Objective, i, &terms)?;
        }
        Ok(())
    }

    /// The rows of the values of the objectives.
    fn push_values<F: Field>(&mut self, form: &Data<F>) -> Result<(), Stop> {
        for (i, objective) in form.p.as_slice().iter().enumerate() {
            let mut terms = Vec::new(self.alloc);
            push_vector(&mut terms, objective.as_slice())?;
            let _variable = self.push_row(Kind::Value, i, &terms)?;
        }
        Ok(())
    }

    /// The rows of the products with the vectors of the cone's dual form.
    fn push_products<F: Field>(
        &mut self,
        form: &Data<F>,
        c: &[F],
        vectors: &[Items<F>],
    ) -> Result<(), Stop> {
        for (d, vector) in vectors.iter().enumerate() {
            let sums = product_sums(self.alloc, form, c, vector.as_slice())?;
            let mut terms = Vec::new(self.alloc);
            for (j, sum) in sums.iter().enumerate() {
                push_term(&mut terms, j, *sum)?;
            }
            let _variable = self.push_row(Kind::Objective, d, &terms)?;
        }
        Ok(())
    }
}

/// What a vector's product with the objectives has at each column, and after them the negative of
/// its product with the duality vector.
fn product_sums<F: Field>(
    alloc: Global,
    form: &Data<F>,
    c: &[F],
    vector: &[F],
) -> Result<Vec<F>, Stop> {
    let mut sums = vec![in alloc; F::zero(); form.cols as usize + 1]?;
    let last = form.cols as usize;
    for (i, objective) in form.p.as_slice().iter().enumerate() {
        let factor = at(vector, i)?;
        if is_zero(factor) {
            continue;
        }
        add_multiple(&mut sums, factor, objective.as_slice())?;
        let value = at(&sums, last)?.sub(factor.mul(at(c, i)?)?)?;
        put(&mut sums, last, value)?;
    }
    Ok(sums)
}

/// Adds a multiple of a vector on the columns.
fn add_multiple<F: Field>(sums: &mut [F], factor: F, vector: &[At<F>]) -> Result<(), Stop> {
    for spot in vector {
        let j = place_of(spot);
        let value = at(sums, j)?.add(factor.mul(spot.value)?)?;
        put(sums, j, value)?;
    }
    Ok(())
}
