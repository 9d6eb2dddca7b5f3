//! Linear programs in whole numbers.

ghost use Rattle.std.specs.Prelude.{◌≡◌, IfSome};
ghost use Rattle.lin_rows.specs.System.{HasLengths};
ghost use Rattle.bench_calls.specs.Programs.{HasOptimum, HasNoBound, HasNoSolution, program_of};

use crate::lines::line_of;
use exact_field::Field;
use exact_simplex::{LpEnd, LpFault, solve_lp};
use frac128::Frac;
use lin_rows::{System, dot};
use std::alloc::Global;

/// The greatest cost by its parts, or 0 and 0 where one has more than 63 bits.
#[repr(C)]
#[derive(Clone, Copy)]
pub struct Value {
    pub num: i64,
    pub den: i64,
}

/// A program in whole numbers, if the lists have the lengths that belong to it.
fn program(
    alloc: Global,
    rows: u32,
    cols: u32,
    a: &[i64],
    b: &[i64],
    cost: &[i64],
) -> Option<System<Frac>>
    ensures lengths { IfSome result (λ system. HasLengths system) }
    ensures numbers { IfSome result (λ system. system ≡ program_of rows cols a.now b.now cost.now) }
{
    let system = System {
        rows,
        cols,
        a: line_of(alloc, a)?,
        b: line_of(alloc, b)?,
        cost: line_of(alloc, cost)?,
    };
    let is_square = system.a.len() as u64 == u64::from(rows) * u64::from(cols);
    if !is_square || system.b.len() != rows as usize || system.cost.len() != cols as usize {
        return None;
    }
    Some(system)
}

/// The cost of a solution by its parts, as far as they have 63 bits.
fn value_of(cost: &[Frac], x: &[Frac]) -> Option<Value> {
    if cost.len() != x.len() {
        return None;
    }
    let total = dot(cost, x).ok()?;
    let num = i64::try_from(total.num()).ok()?;
    let den = i64::try_from(total.den()).ok()?;
    Some(Value { num, den })
}

/// How the program ends: 1 with an optimum, whose value is written, 2 without a solution, 3 without
/// a bound; 4 where a number is not held, and 0 where a list has the wrong length or memory is
/// wanting. Of greatest cost with `a z = b` and `z >= 0`.
#[unsafe(no_mangle)]
pub extern "C" fn bench_program(
    alloc: Global,
    rows: u32,
    cols: u32,
    a: &[i64],
    b: &[i64],
    cost: &[i64],
    value: &mut Value,
) -> u32
    ensures optimal { result ≡ 1 → HasOptimum (program_of rows cols a.now b.now cost.now) }
    ensures infeasible { result ≡ 2 → HasNoSolution (program_of rows cols a.now b.now cost.now) }
    ensures unbounded { result ≡ 3 → HasNoBound (program_of rows cols a.now b.now cost.now) }
{
    let Some(system) = program(alloc, rows, cols, a, b, cost) else {
        return 0;
    };
    match solve_lp(alloc, &system) {
        Ok(LpEnd::Optimal { x, dual, basis }) => {
            *value = value_of(system.cost.as_slice(), x.as_slice()).unwrap_or(Value {
                num: 0,
                den: 0,
            });
            1
        }
        Ok(LpEnd::Infeasible { farkas, basis }) => 2,
        Ok(LpEnd::Unbounded { x, ray, basis }) => 3,
        Err(LpFault::Left { .. }) => 4,
        Err(LpFault::NoMemory) => 0,
    }
}
