//! What is kept from one program of the sides to the next, and the ends that guesses show.
ghost use Rattle.std.specs.Prelude.{map, length, IfOk, IfSome};
ghost use Rattle.exact_simplex.specs.Ends.{IsCertified, IsReadOff};
ghost use Rattle.lp_form.specs.Data.{IsDataOf};
ghost use Rattle.lp_form.specs.Names.{HasWidths, named};
ghost use Rattle.lp_form.specs.Programs.{named_system};
ghost use Rattle.vlp_problem.specs.declared.problem.Problem.{Problem as File};

use crate::written::Written;
use bounded_simplex::Engine;
use exact_field::Field;
use exact_simplex::LpEnd;
use lp_form::{Data, LpName};
use shown_bases::{Contradiction, EmptyGuess, EndGuess, Guess, Optimum, Ray, RayGuess};
use shown_program::{contradiction_of, optimum_of, ray_of};
use src_sink::NoMemory;
use std::alloc::Global;

/// So many guesses in a row may show nothing; then none is asked for any more.
const MOST_IN_VAIN: u32 = 8;

/// What is kept from one program of the sides to the next. It shortens the next one, and no clause
/// speaks of it: that of another problem shortens nothing.
#[derive(Drop)]
pub struct Kept<F: Field> {
    /// What guesses ends.
    engine: Engine,
    /// How many guesses in a row showed nothing.
    in_vain: u32,
    /// Benson's program, once a question was answered without a guess.
    pub(crate) written: Option<Written<F>>,
}

impl<F: Field> Kept<F> {
    /// Nothing is kept yet.
    pub fn new(alloc: Global) -> Kept<F> {
        Kept {
            engine: Engine::new(alloc),
            in_vain: 0,
            written: None,
        }
    }

    /// A guess at how a named program ends, if one is asked for and there is one.
    fn guess(
        &mut self,
        form: &Data<F>,
        c: &[F],
        name: &LpName<F>,
    ) -> Result<Option<EndGuess<F>>, NoMemory> {
        if self.in_vain >= MOST_IN_VAIN {
            return Ok(None);
        }
        match name {
            LpName::Feasible => self.engine.guess_feasible(form),
            LpName::Benson { v, t } => self.engine.guess(form, c, v.as_slice(), *t),
            LpName::Weight { w } => self.engine.guess_weight(form, w.as_slice()),
            LpName::Interior | LpName::Pointed => Ok(None),
        }
    }

    /// Takes note of whether a guess was shown to be right.
    fn note(&mut self, is_shown: bool) {
        if is_shown {
            self.in_vain = 0;
        } else {
            self.in_vain = self.in_vain.saturating_add(1);
            self.engine.forget();
        }
    }

    /// How a named program ends, if a guess shows it.
    pub fn guessed_end(
        &mut self,
        alloc: Global,
        form: &Data<F>,
        c: &[F],
        name: &LpName<F>,
    ) -> Result<Option<LpEnd<F>>, NoMemory>
        requires { HasWidths (length form.now.p) c.now name.now }
        ensures certified { (file : File) → IsDataOf F.value file form.now
            → IfOk result (λ o. IfSome o (IsCertified F.value
            (named_system file (map F.value c.now) (named F.value name.now)))) }
        ensures read_off { (file : File) → IsDataOf F.value file form.now
            → IfOk result (λ o. IfSome o (IsReadOff F.value
            (named_system file (map F.value c.now) (named F.value name.now)))) }
    {
        let guess = self.guess(form, c, name)?;
        let end = tested(alloc, form, c, name, guess)?;
        self.note(end.is_some());
        Ok(end)
    }
}

/// The optimum that a guess shows, if it passes the test.
fn optimal_end<F: Field>(
    alloc: Global,
    form: &Data<F>,
    c: &[F],
    name: &LpName<F>,
    guess: &Guess<F>,
) -> Result<Option<LpEnd<F>>, NoMemory>
    requires { HasWidths (length form.now.p) c.now name.now }
    ensures certified { (file : File) → IsDataOf F.value file form.now
        → IfOk result (λ o. IfSome o (IsCertified F.value
        (named_system file (map F.value c.now) (named F.value name.now)))) }
    ensures read_off { (file : File) → IsDataOf F.value file form.now
        → IfOk result (λ o. IfSome o (IsReadOff F.value
        (named_system file (map F.value c.now) (named F.value name.now)))) }
{
    match optimum_of(alloc, form, c, name, guess)? {
        None => Ok(None),
        Some(Optimum { x, dual, basis }) => Ok(Some(LpEnd::Optimal { x, dual, basis })),
    }
}

/// The multipliers that a guess shows, if it passes the test.
fn infeasible_end<F: Field>(
    alloc: Global,
    form: &Data<F>,
    c: &[F],
    name: &LpName<F>,
    guess: &EmptyGuess<F>,
) -> Result<Option<LpEnd<F>>, NoMemory>
    requires { HasWidths (length form.now.p) c.now name.now }
    ensures certified { (file : File) → IsDataOf F.value file form.now
        → IfOk result (λ o. IfSome o (IsCertified F.value
        (named_system file (map F.value c.now) (named F.value name.now)))) }
    ensures read_off { (file : File) → IsDataOf F.value file form.now
        → IfOk result (λ o. IfSome o (IsReadOff F.value
        (named_system file (map F.value c.now) (named F.value name.now)))) }
{
    match contradiction_of(alloc, form, c, name, guess)? {
        None => Ok(None),
        Some(Contradiction { farkas, basis }) => Ok(Some(LpEnd::Infeasible { farkas, basis })),
    }
}

/// The ray that a guess shows, if it passes the test.
fn unbounded_end<F: Field>(
    alloc: Global,
    form: &Data<F>,
    c: &[F],
    name: &LpName<F>,
    guess: &RayGuess<F>,
) -> Result<Option<LpEnd<F>>, NoMemory>
    requires { HasWidths (length form.now.p) c.now name.now }
    ensures certified { (file : File) → IsDataOf F.value file form.now
        → IfOk result (λ o. IfSome o (IsCertified F.value
        (named_system file (map F.value c.now) (named F.value name.now)))) }
    ensures read_off { (file : File) → IsDataOf F.value file form.now
        → IfOk result (λ o. IfSome o (IsReadOff F.value
        (named_system file (map F.value c.now) (named F.value name.now)))) }
{
    match ray_of(alloc, form, c, name, guess)? {
        None => Ok(None),
        Some(Ray { x, ray, basis }) => Ok(Some(LpEnd::Unbounded { x, ray, basis })),
    }
}

/// The end that a guess shows, if there is a guess and it passes the test.
fn tested<F: Field>(
    alloc: Global,
    form: &Data<F>,
    c: &[F],
    name: &LpName<F>,
    guess: Option<EndGuess<F>>,
) -> Result<Option<LpEnd<F>>, NoMemory>
    requires { HasWidths (length form.now.p) c.now name.now }
    ensures certified { (file : File) → IsDataOf F.value file form.now
        → IfOk result (λ o. IfSome o (IsCertified F.value
        (named_system file (map F.value c.now) (named F.value name.now)))) }
    ensures read_off { (file : File) → IsDataOf F.value file form.now
        → IfOk result (λ o. IfSome o (IsReadOff F.value
        (named_system file (map F.value c.now) (named F.value name.now)))) }
{
    match guess {
        None => Ok(None),
        Some(EndGuess::Optimum(guess)) => optimal_end(alloc, form, c, name, &guess),
        Some(EndGuess::Empty(guess)) => infeasible_end(alloc, form, c, name, &guess),
        Some(EndGuess::Ray(guess)) => unbounded_end(alloc, form, c, name, &guess),
    }
}
