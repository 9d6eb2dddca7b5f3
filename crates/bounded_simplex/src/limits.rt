//! The bounds of the variables at a question, which alone change from one to the next, and those of
//! the first phase.
use crate::meaning::{Bound, Dual, Kind, Meaning};
use exact_field::{Field, is_zero};
use lp_form::{ConeOf, Data};
use whole_programs::{Limits, Ratio, Simplex, Stop, at, item, negative, put};

/// A side's bound, which is 0 where the question is asked at a direction.
fn side_limit(bound: Option<Bound>, t: bool) -> Option<Ratio> {
    let bound = bound?;
    if t {
        Some(bound.value)
    } else {
        Some(Ratio::whole(0))
    }
}

/// The product of two vectors.
fn product<F: Field>(one: &[F], other: &[F]) -> Result<F, Stop> {
    let mut sum = F::zero();
    for (x, y) in one.iter().zip(other) {
        if !is_zero(*x) {
            sum = sum.add(x.mul(*y)?)?;
        }
    }
    Ok(sum)
}

/// The greatest value of a variable of the objectives at `v`.
fn objective_limit<F: Field>(form: &Data<F>, v: &[F], number: usize) -> Result<F, Stop> {
    match &form.cone {
        ConeOf::Orthant | ConeOf::Gens(_) => at(v, number),
        ConeOf::Dual(vectors) => product(item(vectors.as_slice(), number)?.as_slice(), v),
    }
}

/// The bounds of a variable of the objectives: with generators it is fixed.
fn objective_limits<F: Field>(
    form: &Data<F>,
    v: &[F],
    number: usize,
    scale: i128,
) -> Result<Limits, Stop> {
    let value = Ratio::times(objective_limit(form, v, number)?, scale)?;
    let low = match &form.cone {
        ConeOf::Gens(_) => Some(value),
        ConeOf::Orthant | ConeOf::Dual(_) => None,
    };
    Ok(Limits {
        low,
        high: Some(value),
    })
}

/// The bounds of a variable.
fn limits_of<F: Field, S: Simplex<F> + Drop>(
    dual: &Dual<S>,
    form: &Data<F>,
    v: &[F],
    t: bool,
    variable: usize,
    meaning: &Meaning,
) -> Result<Limits, Stop> {
    match meaning.kind {
        Kind::Column | Kind::Side => Ok(Limits {
            low: side_limit(meaning.low, t),
            high: side_limit(meaning.high, t),
        }),
        Kind::Share | Kind::Value => Ok(Limits {
            low: None,
            high: None,
        }),
        Kind::Multiplier => Ok(Limits {
            low: Some(Ratio::whole(0)),
            high: None,
        }),
        Kind::Objective => {
            let scale = dual.solver.program().scale(variable)?;
            objective_limits(form, v, meaning.number, scale)
        }
    }
}

/// The bounds of each variable at a question.
pub(crate) fn limits_at<F: Field, S: Simplex<F> + Drop>(
    dual: &Dual<S>,
    form: &Data<F>,
    v: &[F],
    t: bool,
) -> Result<Vec<Limits>, Stop> {
    let mut limits = Vec::new(dual.alloc);
    for (variable, meaning) in dual.meanings.iter().enumerate() {
        limits.push(limits_of(dual, form, v, t, variable, meaning)?)?;
    }
    Ok(limits)
}

/// The bounds of a variable in the first phase, where it has none in the program: that of the
/// artificial column of its equation, by the sign of its right side.
fn artificial_limits(scale: i128, is_negative: bool) -> Result<Limits, Stop> {
    if is_negative {
        return Ok(Limits {
            low: None,
            high: Some(Ratio::whole(scale)),
        });
    }
    Ok(Limits {
        low: Some(Ratio::whole(negative(scale)?)),
        high: None,
    })
}

/// Whether the equation of a variable has a right side below 0: only those of a weight's entries
/// may have one.
fn has_negative_right<F: Field>(meaning: &Meaning, w: &[F]) -> Result<bool, Stop> {
    if meaning.kind != Kind::Value {
        return Ok(false);
    }
    Ok(at(w, meaning.number)?.sign() < 0)
}

/// The bounds of each variable in the first phase, where `w` are the weights, if there are any: the
/// bounds that are there are 0, and a variable without bounds has one, at which it names an
/// artificial column.
pub(crate) fn first_limits<F: Field, S: Simplex<F> + Drop>(
    dual: &Dual<S>,
    form: &Data<F>,
    w: &[F],
) -> Result<Vec<Limits>, Stop> {
    let v = vec![in dual.alloc; F::zero(); form.p.len()]?;
    let mut limits = limits_at(dual, form, &v, false)?;
    for (variable, meaning) in dual.meanings.iter().enumerate() {
        let own = at(&limits, variable)?;
        if own.low.is_none() && own.high.is_none() {
            let scale = dual.solver.program().scale(variable)?;
            let is_negative = has_negative_right(meaning, w)?;
            put(
                &mut limits,
                variable,
                artificial_limits(scale, is_negative)?,
            )?;
        }
    }
    Ok(limits)
}
