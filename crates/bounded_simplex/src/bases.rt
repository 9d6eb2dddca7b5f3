//! The bases of one solver, which are kept from question to question.
use crate::building::{dual_of_benson, dual_of_sides, dual_of_weight};
use crate::limits::{first_limits, limits_at};
use crate::meaning::Dual;
use exact_field::Field;
use lp_form::Data;
use shown_bases::EndGuess;
use src_sink::NoMemory;
use std::alloc::Global;
use whole_programs::{Simplex, Stop, Term};

/// The bases of one solver.
#[derive(Debug, Drop)]
pub(crate) struct Bases<S: Drop> {
    alloc: Global,
    /// The last basis, if the last question of Benson's program had a guess of an optimum.
    dual: Option<Dual<S>>,
    /// The last basis of the program of a weight, whose values keep the bounds of the sides.
    weighed: Option<Dual<S>>,
}

/// What came of a question: none where it was declined.
fn answer_of<T>(end: Result<T, Stop>) -> Result<Option<T>, NoMemory> {
    match end {
        Ok(answer) => Ok(Some(answer)),
        Err(Stop::Declined) => Ok(None),
        Err(Stop::NoMemory) => Err(NoMemory),
    }
}

/// Goes to a basis whose values keep the bounds, or declines.
fn settle<F: Field, S: Simplex<F> + Drop>(
    dual: &mut Dual<S>,
    form: &Data<F>,
    v: &[F],
    t: bool,
) -> Result<(), Stop> {
    let limits = limits_at(dual, form, v, t)?;
    match dual.solver.solve(&limits)? {
        None => Ok(()),
        Some(_failing) => Err(Stop::Declined),
    }
}

/// The same in the first phase.
fn settle_first<F: Field, S: Simplex<F> + Drop>(
    dual: &mut Dual<S>,
    form: &Data<F>,
    w: &[F],
) -> Result<(), Stop> {
    let limits = first_limits(dual, form, w)?;
    match dual.solver.solve(&limits)? {
        None => Ok(()),
        Some(_failing) => Err(Stop::Declined),
    }
}

/// The guess at a question of Benson's program, from a basis at which the costs have the right
/// signs.
fn ask<F: Field, S: Simplex<F> + Drop>(
    dual: &mut Dual<S>,
    form: &Data<F>,
    c: &[F],
    v: &[F],
    t: bool,
) -> Result<EndGuess<F>, Stop> {
    settle(dual, form, v, t)?;
    dual.guess(form, c, v)
}

/// The dual of Benson's program at a basis at which its costs have the right signs: none where
/// there is none.
fn start<F: Field, S: Simplex<F> + Drop>(
    alloc: Global,
    form: &Data<F>,
    c: &[F],
    v: &[F],
) -> Result<Option<Dual<S>>, Stop> {
    let mut dual: Dual<S> = dual_of_benson(alloc, form, c)?;
    let limits = limits_at(&dual, form, v, true)?;
    if dual.solver.start(&limits)? {
        Ok(Some(dual))
    } else {
        Ok(None)
    }
}

/// The guess that Benson's program has no solution, by its first phase.
fn ask_none<F: Field, S: Simplex<F> + Drop>(
    alloc: Global,
    form: &Data<F>,
    c: &[F],
) -> Result<EndGuess<F>, Stop> {
    let mut dual: Dual<S> = dual_of_benson(alloc, form, c)?;
    settle_first(&mut dual, form, &[])?;
    dual.guess_none(form, c)
}

/// A guess at a point of the sides, or at why there is none.
fn ask_feasible<F: Field, S: Simplex<F> + Drop>(
    alloc: Global,
    form: &Data<F>,
) -> Result<EndGuess<F>, Stop> {
    let mut dual: Dual<S> = dual_of_sides(alloc, form)?;
    let limits = limits_at(&dual, form, &[], true)?;
    match dual.solver.solve(&limits)? {
        None => dual.guess_point(form),
        Some(failing) => dual.guess_contradiction(form, failing),
    }
}

/// The dual of the program of a weight at a basis whose values keep the bounds.
fn start_weighing<F: Field, S: Simplex<F> + Drop>(
    alloc: Global,
    form: &Data<F>,
) -> Result<Dual<S>, Stop> {
    let mut dual: Dual<S> = dual_of_weight(alloc, form)?;
    settle(&mut dual, form, &[], true)?;
    Ok(dual)
}

/// Makes the sum of the objectives with these weights what is minimised, goes to its least value,
/// and answers whether there is one.
fn minimise<F: Field, S: Simplex<F> + Drop>(dual: &mut Dual<S>, w: &[F]) -> Result<bool, Stop> {
    let mut terms = Vec::new(dual.alloc);
    for (i, weight) in w.iter().enumerate() {
        let at = dual.objectives.saturating_add(i);
        terms.push(Term { at, value: *weight })?;
    }
    dual.solver.minimise_sum(&terms)?;
    dual.solver.improve()
}

/// The guess that the program of a weight has no solution, by its first phase.
fn ask_no_weight<F: Field, S: Simplex<F> + Drop>(
    alloc: Global,
    form: &Data<F>,
    w: &[F],
) -> Result<EndGuess<F>, Stop> {
    let mut dual: Dual<S> = dual_of_weight(alloc, form)?;
    settle_first(&mut dual, form, w)?;
    if !minimise(&mut dual, w)? {
        return Err(Stop::Declined);
    }
    dual.guess_no_weight(form, w)
}

impl<S: Drop> Bases<S> {
    /// No basis. No memory is taken yet.
    pub(crate) fn new(alloc: Global) -> Bases<S> {
        Bases {
            alloc,
            dual: None,
            weighed: None,
        }
    }

    /// Gives up the bases, so that the next question begins anew.
    pub(crate) fn forget(&mut self) {
        self.dual = None;
        self.weighed = None;
    }

    /// A guess at the end of Benson's program.
    pub(crate) fn guess<F: Field>(
        &mut self,
        form: &Data<F>,
        c: &[F],
        v: &[F],
        t: bool,
    ) -> Result<Option<EndGuess<F>>, NoMemory>
    where
        S: Simplex<F>,
    {
        if let Some(mut dual) = self.dual.take() {
            let guess = answer_of(ask(&mut dual, form, c, v, t))?;
            if guess.is_some() {
                self.dual = Some(dual);
                return Ok(guess);
            }
        }
        answer_of(self.begin(form, c, v, t))
    }

    /// The same from no basis.
    fn begin<F: Field>(
        &mut self,
        form: &Data<F>,
        c: &[F],
        v: &[F],
        t: bool,
    ) -> Result<EndGuess<F>, Stop>
    where
        S: Simplex<F>,
    {
        let Some(mut dual) = start(self.alloc, form, c, v)? else {
            return ask_none::<F, S>(self.alloc, form, c);
        };
        let guess = ask(&mut dual, form, c, v, t)?;
        self.dual = Some(dual);
        Ok(guess)
    }

    /// A guess at the end of the program of a weight, where the cone is not in dual form.
    pub(crate) fn guess_weight<F: Field>(
        &mut self,
        form: &Data<F>,
        w: &[F],
    ) -> Result<Option<EndGuess<F>>, NoMemory>
    where
        S: Simplex<F>,
    {
        answer_of(self.ask_weight(form, w))
    }

    /// The same, where the basis is given up if it declines.
    fn ask_weight<F: Field>(&mut self, form: &Data<F>, w: &[F]) -> Result<EndGuess<F>, Stop>
    where
        S: Simplex<F>,
    {
        let mut dual = match self.weighed.take() {
            Some(dual) => dual,
            None => start_weighing(self.alloc, form)?,
        };
        let guess = if minimise(&mut dual, w)? {
            dual.guess_weight(form, w)?
        } else {
            ask_no_weight::<F, S>(self.alloc, form, w)?
        };
        self.weighed = Some(dual);
        Ok(guess)
    }

    /// A guess at a point of the sides, or at why there is none. It takes a basis of its own.
    pub(crate) fn guess_feasible<F: Field>(
        &self,
        form: &Data<F>,
    ) -> Result<Option<EndGuess<F>>, NoMemory>
    where
        S: Simplex<F>,
    {
        answer_of(ask_feasible::<F, S>(self.alloc, form))
    }
}
