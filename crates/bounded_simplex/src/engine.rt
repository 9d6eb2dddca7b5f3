//! The engine, which keeps its state from question to question.
use crate::bases::Bases;
use exact_field::Field;
use frac128::Frac;
use lp_form::{ConeOf, Data};
use shown_bases::EndGuess;
use src_sink::NoMemory;
use std::alloc::Global;
use whole_simplex::Solver;

/// So often in a row the first solver declines before the second alone is asked.
const MOST_DECLINES: u32 = 4;

/// An engine for guesses over one problem and one duality vector. With another problem it makes
/// guesses that fail their test, if any.
#[derive(Debug, Drop)]
pub struct Engine {
    /// The bases of the first solver, which has one denominator for all numbers.
    whole: Bases<Solver>,
    /// Those of the second, over fractions, which is asked where the first declines.
    short: Bases<short_simplex::Solver<Frac>>,
    /// How often in a row the first declined.
    declines: u32,
}

impl Engine {
    /// An engine without a basis. No memory is taken yet.
    pub fn new(alloc: Global) -> Engine {
        Engine {
            whole: Bases::new(alloc),
            short: Bases::new(alloc),
            declines: 0,
        }
    }

    /// Counts what the first solver answered.
    fn count_answer(&mut self, is_some: bool) {
        self.declines = if is_some {
            0
        } else {
            self.declines.saturating_add(1)
        };
    }

    /// Gives up the bases, so that the next question begins anew: where a guess failed its test.
    pub fn forget(&mut self) {
        self.whole.forget();
        self.short.forget();
    }

    /// A guess at the end of Benson's program at `v`, a point where `t` is true and a direction
    /// otherwise: an optimum, or that there is no solution. There is none where a number is too
    /// long, or the steps are too many. It is made for the tests of `shown_program`.
    ///
    /// A question near the last one takes few steps. A step costs the entries of a row of the
    /// inverse times those of a column, and of the rows of the file that have a part in it.
    pub fn guess<F: Field>(
        &mut self,
        form: &Data<F>,
        c: &[F],
        v: &[F],
        t: bool,
    ) -> Result<Option<EndGuess<F>>, NoMemory> {
        if self.declines < MOST_DECLINES {
            let guess = self.whole.guess(form, c, v, t)?;
            self.count_answer(guess.is_some());
            if guess.is_some() {
                return Ok(guess);
            }
        }
        self.short.guess(form, c, v, t)
    }

    /// A guess at the end of the program of the weight `w`: an optimum, or that there is no
    /// solution. There is none where a number is too long, or the steps are too many; and none
    /// where the cone is in dual form.
    pub fn guess_weight<F: Field>(
        &mut self,
        form: &Data<F>,
        w: &[F],
    ) -> Result<Option<EndGuess<F>>, NoMemory> {
        if let ConeOf::Dual(_) = &form.cone {
            return Ok(None);
        }
        if self.declines < MOST_DECLINES {
            let guess = self.whole.guess_weight(form, w)?;
            self.count_answer(guess.is_some());
            if guess.is_some() {
                return Ok(guess);
            }
        }
        self.short.guess_weight(form, w)
    }

    /// A guess at the end of the program `Feasible`: a point of the sides, or a contradiction of
    /// them. There is none where a number is too long, or the steps are too many.
    pub fn guess_feasible<F: Field>(
        &self,
        form: &Data<F>,
    ) -> Result<Option<EndGuess<F>>, NoMemory> {
        let guess = self.whole.guess_feasible(form)?;
        if guess.is_some() {
            return Ok(guess);
        }
        self.short.guess_feasible(form)
    }
}
