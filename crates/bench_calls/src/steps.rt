//! Programs of operations on fractions in places, which a driver writes for a workload of its own.

ghost use Rattle.std.specs.Prelude.{◌≡◌, ◌≤◌, ◌↔◌, ◌&&◌, nat_le, cond, length, take, IsTrue, Some, None};
ghost use Rattle.std.specs.Bool.{MatchBool, OnTrue};
ghost use Rattle.bench_calls.specs.Steps.{answer_of, step_of, run_of, ends_in_zero, numbers_of, are_operands, first_is_zero, passes};

use crate::fractions::{Number, fraction};
use exact_field::Field;
use frac128::Frac;

/// A step: the operation (0 sum, 1 difference, 2 product, else quotient), the places of its two
/// operands, and the place of its result.
#[repr(C)]
#[derive(Clone, Copy)]
pub struct Step {
    pub operation: u32,
    pub left: u32,
    pub right: u32,
    pub into: u32,
}

fn answer(operation: u32, a: Frac, b: Frac) -> Option<Frac>
    ensures { result ≡ answer_of operation a b }
{
    match operation {
        0 => a.add(b).ok(),
        1 => a.sub(b).ok(),
        2 => a.mul(b).ok(),
        _ if b == Frac::zero() => None,
        _ => a.div(b).ok(),
    }
}

/// Takes the step, or answers false and leaves the numbers.
fn take_step(step: Step, numbers: &mut [Frac]) -> bool
    ensures { MatchBool result (step_of numbers.old step ≡ Some numbers.new)
        (step_of numbers.old step ≡ None) }
{
    let (left, right, into) = (step.left as usize, step.right as usize, step.into as usize);
    let count = numbers.len();
    if left >= count || right >= count || into >= count {
        return false;
    }
    match answer(step.operation, numbers[left], numbers[right]) {
        Some(number) => {
            numbers[into] = number;
            true
        }
        None => false,
    }
}

/// Takes all steps, as far as they have answers.
fn run(steps: &[Step], numbers: &mut [Frac]) -> bool
    ensures { MatchBool result (run_of steps.now numbers.old ≡ Some numbers.new)
        (run_of steps.now numbers.old ≡ None) }
{
    for step in steps {
        if !take_step(*step, numbers) {
            return false;
        }
    }
    true
}

/// How many places there are.
const PLACES: usize = 2048;

/// Puts the numbers into the first places, or answers false where one is not held or there are too
/// few places.
fn put(given: &[Number], numbers: &mut [Frac]) -> bool
    requires { length given.now ≤ length numbers.old }
    ensures items { OnTrue result (take (length given.now) numbers.new ≡ numbers_of given.now) }
    ensures held { IsTrue result ↔ IsTrue (are_operands given.now) }
{
    for (k, number) in given.iter().enumerate() {
        match fraction::<Frac>(*number) {
            Some(value) => numbers[k] = value,
            None => return false,
        }
    }
    true
}

fn begins_in_zero(numbers: &[Frac]) -> bool
    ensures { result ≡ first_is_zero numbers.now }
{
    match numbers.first() {
        Some(number) => *number == Frac::zero(),
        None => false,
    }
}

/// Runs the program so many times, each time from these numbers, and counts how often it ends with
/// 0 in the first place.
fn runs(steps: &[Step], numbers: &[Frac], rounds: u32) -> u32
    requires { length numbers.now ≤ 2048 }
    ensures { result ≡ cond (ends_in_zero (run_of steps.now numbers.now)) rounds 0 }
{
    let mut places = [Frac::zero(); PLACES];
    let work = &mut places[..numbers.len()];
    let mut counted = 0;
    for round in 0..rounds {
        work.copy_from_slice(numbers);
        if run(steps, work) && begins_in_zero(work) {
            counted += 1;
        }
    }
    counted
}

/// Runs the program on the given numbers so many times, and counts the runs whose results are all
/// held and that end with 0 in the first place; none where a given number is not held, or more than
/// 2048 are given.
#[unsafe(no_mangle)]
pub extern "C" fn bench_runs(given: &[Number], steps: &[Step], rounds: u32) -> u32
    ensures { result
        ≡ cond (nat_le (length given.now) 2048 && passes given.now steps.now) rounds 0 }
{
    let count = given.len();
    let mut numbers = [Frac::zero(); PLACES];
    if count <= PLACES && put(given, &mut numbers) {
        runs(steps, &numbers[..count], rounds)
    } else {
        0
    }
}
