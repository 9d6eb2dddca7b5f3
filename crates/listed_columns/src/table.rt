//! The columns of a program, as a guess lists them.
use crate::lists::{Lists, number_of, place_of};
use crate::ordering::order_of;
use exact_field::{Field, is_zero};
use lp_form::{At, ConeOf, Data};
use shown_bases::Order;
use src_sink::Items;
use std::alloc::Global;
use whole_programs::{Stop, at, item};

/// How the large program is laid out: the first number, from 0, of each kind of column, and how
/// many equations there are.
#[derive(Clone, Copy, Debug)]
pub struct Layout {
    weights: usize,
    negatives: usize,
    unknowns: usize,
    artificial: usize,
    /// The first equation of the cone.
    pub cone: usize,
    pub equations: usize,
}

impl Layout {
    /// That with so many sides, objectives, unknowns after the weight vector, and equations before
    /// and from the first of the cone on.
    fn new(sides: usize, objectives: usize, unknowns: usize, cone: usize, more: usize) -> Layout {
        let negatives = sides.saturating_add(objectives);
        let first_unknown = negatives.saturating_add(objectives);
        Layout {
            weights: sides,
            negatives,
            unknowns: first_unknown,
            artificial: first_unknown.saturating_add(unknowns),
            cone,
            equations: cone.saturating_add(more),
        }
    }

    /// That of the program of the sides alone.
    pub fn of_sides<F: Field>(form: &Data<F>) -> Layout {
        Layout::new(form.sides.len(), 0, 0, form.cols as usize, 0)
    }

    /// That of the program of a weight, where the cone is not in dual form.
    pub fn of_weight<F: Field>(form: &Data<F>) -> Layout {
        let q = form.p.len();
        Layout::new(form.sides.len(), q, 0, form.cols as usize, q)
    }

    /// That of Benson's program.
    pub fn of_benson<F: Field>(form: &Data<F>) -> Layout {
        let q = form.p.len();
        let (unknowns, equations) = match &form.cone {
            ConeOf::Orthant => (q, q),
            ConeOf::Gens(vectors) => (vectors.len(), vectors.len()),
            ConeOf::Dual(vectors) => (vectors.len(), q),
        };
        let more = equations.saturating_add(1);
        Layout::new(form.sides.len(), q, unknowns, form.cols as usize, more)
    }
}

/// The magnitude of a number.
pub fn magnitude<F: Field>(x: F) -> F {
    if x.sign() < 0 { x.neg() } else { x }
}

/// Appends the places of a vector's spots.
fn push_places<F: Field>(lists: &mut Lists, vector: &[At<F>]) -> Result<(), Stop> {
    for spot in vector {
        lists.push(place_of(spot))?;
    }
    Ok(())
}

/// Appends the places of a list's numbers that are not 0, after a first one.
fn push_nonzero<F: Field>(lists: &mut Lists, base: usize, vector: &[F]) -> Result<(), Stop> {
    for (i, x) in vector.iter().enumerate() {
        if !is_zero(*x) {
            lists.push(base.saturating_add(i))?;
        }
    }
    Ok(())
}

/// The columns of a basis with a number for each, and an order that shows them to be independent.
#[derive(Drop)]
pub struct Ordered<F: Drop> {
    pub columns: Items<u32>,
    pub numbers: Items<F>,
    pub order: Order,
}

/// The columns of a basis with a number for each, and the equations in which they have entries.
#[derive(Drop)]
pub struct Basis<'a, F: Field> {
    pub form: &'a Data<F>,
    pub layout: Layout,
    columns: Items<u32>,
    numbers: Items<F>,
    lists: Lists,
}

impl<'a, F: Field> Basis<'a, F> {
    pub fn new(alloc: Global, form: &'a Data<F>, layout: Layout) -> Basis<'a, F> {
        Basis {
            form,
            layout,
            columns: Items::new(alloc),
            numbers: Items::new(alloc),
            lists: Lists::new(alloc),
        }
    }

    /// Ends the list of equations of a column, and appends it with its number.
    fn push(&mut self, base: usize, number: usize, value: F) -> Result<(), Stop> {
        self.lists.end()?;
        self.columns.push(number_of(base, number)?)?;
        self.numbers.push(value)?;
        Ok(())
    }

    /// The column of a side's multiplier.
    pub fn push_side(&mut self, side: usize, value: F) -> Result<(), Stop> {
        let form = self.form;
        push_places(
            &mut self.lists,
            item(form.sides.as_slice(), side)?.g.as_slice(),
        )?;
        self.push(0, side, value)
    }

    /// The artificial column of an equation.
    pub fn push_artificial(&mut self, equation: usize) -> Result<(), Stop> {
        let base = self.layout.artificial;
        self.lists.push(equation)?;
        self.push(base, equation, F::zero())
    }

    /// The column of an entry of the weight vector, by its sign.
    pub fn push_weight(&mut self, c: &[F], i: usize, value: F) -> Result<(), Stop> {
        let form = self.form;
        push_places(&mut self.lists, item(form.p.as_slice(), i)?.as_slice())?;
        self.push_members(i)?;
        if !is_zero(at(c, i)?) {
            self.lists.push(self.layout.equations.saturating_sub(1))?;
        }
        self.push_signed(i, value)
    }

    /// The same where the entry is given: it is in the equation that says so, and in none of the
    /// cone.
    pub fn push_given(&mut self, i: usize, value: F) -> Result<(), Stop> {
        let form = self.form;
        push_places(&mut self.lists, item(form.p.as_slice(), i)?.as_slice())?;
        self.lists.push(self.layout.cone.saturating_add(i))?;
        self.push_signed(i, value)
    }

    /// Ends the list of equations of an entry of the weight vector, and appends its column.
    fn push_signed(&mut self, i: usize, value: F) -> Result<(), Stop> {
        let layout = self.layout;
        let base = if value.sign() < 0 {
            layout.negatives
        } else {
            layout.weights
        };
        self.push(base, i, magnitude(value))
    }

    /// The equations of the cone in which an entry of the weight vector is.
    fn push_members(&mut self, i: usize) -> Result<(), Stop> {
        let form = self.form;
        let base = self.layout.cone;
        match &form.cone {
            ConeOf::Orthant | ConeOf::Dual(_) => self.lists.push(base.saturating_add(i)),
            ConeOf::Gens(vectors) => {
                for (g, vector) in vectors.as_slice().iter().enumerate() {
                    if !is_zero(at(vector.as_slice(), i)?) {
                        self.lists.push(base.saturating_add(g))?;
                    }
                }
                Ok(())
            }
        }
    }

    /// The column of an unknown after the weight vector.
    pub fn push_unknown(&mut self, d: usize, value: F) -> Result<(), Stop> {
        let form = self.form;
        let base = self.layout.cone;
        let unknowns = self.layout.unknowns;
        match &form.cone {
            ConeOf::Orthant | ConeOf::Gens(_) => self.lists.push(base.saturating_add(d))?,
            ConeOf::Dual(vectors) => {
                let vector = item(vectors.as_slice(), d)?.as_slice();
                push_nonzero(&mut self.lists, base, vector)?;
            }
        }
        self.push(unknowns, d, value)
    }

    /// The columns with their numbers and an order, if there are as many as equations.
    pub fn ordered(self, alloc: Global) -> Result<Ordered<F>, Stop> {
        let Basis {
            form: _,
            layout,
            columns,
            numbers,
            lists,
        } = self;
        if columns.len() != layout.equations {
            return Err(Stop::Declined);
        }
        let order = order_of(alloc, lists)?;
        Ok(Ordered {
            columns,
            numbers,
            order,
        })
    }
}
