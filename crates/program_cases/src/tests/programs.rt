//! Linear programs: the three ends, ties, equations that repeat or contradict each other, hints,
//! one program after another, and each step that can overflow. A line has the call, the
//! coefficients row by row, the right sides and the cost.

use super::texts::{begins, numbers, places, put_fault, put_numbers, put_places};
use exact_field::Field;
use exact_simplex::{Kept, LpEnd, LpFault, solve_lp, solve_lp_from, solve_lp_next};
use frac128::{Frac, Tiny};
use lin_rows::{RowFault, System};
use src_sink::{Bytes, Items, NoMemory};
use std::alloc::Global;

/// Over fractions. Lines 4 to 6 are programs of Beale, Kuhn, and Marshall and Suurballe, with rows
/// and cost in whole numbers.
const ENDS: &str = "\
anew; 1 1 1; 2; 1 0 0; optimal 2 0 0 dual 1 basis 1
anew; 1; -1; 0; infeasible
anew; 1 -1; 0; 1 0; unbounded 1 1
anew; 4 0 0 1 -32 -4 36 0 2 0 1 -24 -1 6 0 0 1 0 0 1 0; 0 0 1; 0 0 0 3 -80 2 -24; optimal 3/4 0 0 1 0 1 0 dual
anew; 1 0 0 -2 -9 1 9 0 3 0 1 3 -1 -6 0 0 1 2 3 -1 -12; 0 0 2; 0 0 0 2 3 -1 -12; optimal 2 0 0 2 0 2 0 dual
anew; 1 -11 -5 18 2 0 0 1 -3 -1 2 0 2 0 1 0 0 0 0 0 1; 0 0 1; 10 -57 -9 -24 0 0 0; optimal 1 0 1 0 2 0 0 dual
anew; 1 1 -1 -1; 1 -1; 0 -1; optimal 1 0 dual
anew; 1 1; 1 2; 1; infeasible
anew; ; ; 1; unbounded 1
anew; ; 1; ; infeasible
anew; 1 0 0 1; 1 2; -1 1; optimal 1 2 dual -1 1 basis 1 2
from 1; 1 1 1; 2; 0 1 0; optimal 0 2 0 dual 1 basis 2
from 9; 1 1 1; 2; 0 1 0; optimal 0 2 0 dual 1 basis 2
from 1; 1 1 1; 2; 1 1 0; optimal 2 0 0 dual 1 basis 1
from 0 2 2; 1 1 1; 2; 1 1 0; optimal 0 2 0 dual 1 basis 2
next; 1 1 1; 2; 1 0 0; optimal 2 0 0 dual 1 basis 1
next; 1 1 1; 2; 0 0 1; optimal 0 0 2 dual 1 basis 3
next; 1 1 1; 2; 0 0 0; optimal 0 0 2 dual 0 basis 3
next; 1 1 1; 1; 0 1 0; optimal 0 1 0 dual 1 basis 2
next; 1 1 1; -1; 0 1 0; infeasible
next; 1 1 1; 1; 0 1 0; optimal 0 1 0 dual 1 basis 2
next; 1 -1; 0; 1 0; unbounded 1 1
next; 1 -1; 0; -1 0; optimal 0 0 dual -1 basis 1";

/// Over tiny numbers. Of the first two the second begins anew, since twice an entry of the last
/// dictionary is not held. In the last but two the first cost row is -116/15 at an artificial
/// column. In the last two the hint overflows, and the program does not.
const STEPS: &str = "\
next; 1 30 0 0 1 3; 31 1; 0 1 0; optimal 1 1 0 dual
next; 1 30 0 0 1 3; 31 1; 2 30 -100; optimal 1 1 0 dual
anew; 1/2 100; 1; 0 0; left 1 1 1 div 100 1/2
anew; 1 1/2; 1 100; 0; left 2 1 1 div 100 1/2
anew; 1 12 12 1; 1 100; 0 0; left 1 1 2 mul 12 12
anew; 1 10 10 -100; 1 50; 0 0; left 1 1 3 sub -100 100
anew; 12 8/5 -4 2 -9 5 5 -5 -3 1; 1 0 0 0 0; 0 0; left 6 7 3 sub -116/15 1
anew; 1 1/2 100; 1; 0 0 0; optimal
from 2; 1 1/2 100; 1; 0 0 0; left 1 2 1 div 100 1/2";

/// A program.
fn system<F: Field>(alloc: Global, a: &str, b: &str, cost: &str) -> Option<System<F>> {
    let b = numbers(alloc, b)?;
    let cost = numbers(alloc, cost)?;
    Some(System {
        rows: u32::try_from(b.len()).ok()?,
        cols: u32::try_from(cost.len()).ok()?,
        a: numbers(alloc, a)?,
        b,
        cost,
    })
}

/// How a program ends.
fn end<F: Field>(
    alloc: Global,
    call: &str,
    system: System<F>,
    kept: &mut Kept<F>,
) -> Option<Result<LpEnd<F>, LpFault<F>>> {
    let is_whole = system.b.len() == system.rows as usize
        && system.cost.len() == system.cols as usize
        && system.a.len() == system.rows as usize * system.cols as usize;
    if !is_whole {
        return None;
    }
    match call {
        "anew" => Some(solve_lp(alloc, &system)),
        "next" => Some(solve_lp_next(alloc, system, kept)),
        _ => {
            let columns = places(alloc, call.strip_prefix("from")?)?;
            Some(solve_lp_from(alloc, &system, columns.as_slice()))
        }
    }
}

/// Appends an end.
fn put_end<F: Field>(text: &mut Bytes, end: &LpEnd<F>) -> Result<(), NoMemory> {
    match end {
        LpEnd::Optimal { x, dual, basis } => {
            text.append(b"optimal")?;
            put_numbers(text, x.as_slice())?;
            text.append(b" dual")?;
            put_numbers(text, dual.as_slice())?;
            text.append(b" basis")?;
            put_places(text, basis.as_slice())
        }
        LpEnd::Infeasible { .. } => text.append(b"infeasible"),
        LpEnd::Unbounded { ray, .. } => {
            text.append(b"unbounded")?;
            put_numbers(text, ray.as_slice())
        }
    }
}

/// Where a program was given up.
fn put_lp_fault<F: Field>(text: &mut Bytes, fault: LpFault<F>) -> Result<(), NoMemory> {
    match fault {
        LpFault::Left {
            basis,
            row,
            col,
            step,
            left,
        } => put_fault(
            text,
            &RowFault::Left {
                basis,
                row,
                col,
                step,
                left,
            },
        ),
        LpFault::NoMemory => Err(NoMemory),
    }
}

/// The text of what is answered.
fn end_text<F: Field>(alloc: Global, end: Result<LpEnd<F>, LpFault<F>>) -> Result<Bytes, NoMemory> {
    let mut text = Bytes::new(alloc);
    match end {
        Ok(end) => put_end(&mut text, &end)?,
        Err(fault) => put_lp_fault(&mut text, fault)?,
    }
    Ok(text)
}

/// Whether the program of the line ends as it should.
fn agrees<F: Field>(alloc: Global, line: &str, kept: &mut Kept<F>) -> Option<bool> {
    let mut parts = line.split(';');
    let call = parts.next()?;
    let system = system(alloc, parts.next()?, parts.next()?, parts.next()?)?;
    let end = end(alloc, call, system, kept)?;
    Some(begins(&end_text(alloc, end).ok()?, parts.next()?))
}

#[test]
fn programs_end(rt: HostRuntime) {
    let mut kept: Kept<Frac> = Kept::new();
    for line in ENDS.lines() {
        assert!(rt; agrees(rt.alloc(), line, &mut kept) == Some(true), "{line}");
    }
    let mut kept: Kept<Tiny> = Kept::new();
    for line in STEPS.lines() {
        assert!(rt; agrees(rt.alloc(), line, &mut kept) == Some(true), "{line}");
    }
}
