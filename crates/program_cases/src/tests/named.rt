//! The named programs of a file: their equations, and what is read off a solution and off the
//! multipliers of the equations.
ghost use Rattle.std.specs.Prelude.{◌+◌, ◌≤◌, length, IsTrue};
ghost use Rattle.lp_form.specs.Names.{HasWidths};
ghost use Rattle.lp_form.specs.Reading.{HasColumns, HasEquations, IsSplit};

use super::texts::{begins, numbers, put_numbers};
use exact_field::{Field, is_zero};
use exact_simplex::{LpEnd, solve_lp};
use frac128::{Frac, Tiny};
use lin_rows::System;
use lp_form::{ConeOf, Data, LpName, choice, parts, program};
use src_sink::{Bytes, Items, NoMemory};
use std::alloc::Global;
use vlp_reader::read_vlp;

/// x and y, both objectives, with x + y >= 1, x >= 0 and y <= 3. Of the ordering cone the first
/// entry is at least the second, and that at least 0.
const FILE: &str = "\
p vlp min 1 2 2 2 2 dualcone 2 3
a 1 1 1
a 1 2 1
o 1 1 1
o 2 2 1
k 1 1 1
k 2 1 -1
k 2 2 1
i 1 l 1
j 1 l 0
j 2 u 3
e
";

/// A name, the duality vector and the vector of the name; the unknowns are three of the sides, two
/// and two of the weight, and two of the cone.
///
/// Benson's program at (0, 5) has the value 2, at the weight (1, -1) and at (0, 3) alone, which is
/// also where x - y is least.
const PROGRAMS: &str = "\
feasible; ; ; a 1 1 0 1 0 -1 b 0 0 cost 1 0 -3 u 0 0 0 w v x
point; 2 1; 0 5; a 1 1 0 -1 0 1 0 0 0 1 0 -1 0 -1 0 1 0 0 0 0 0 1 0 -1 0 -1 0 0 0 0 0 1 0 -1 1 -1 0 0 0 2 1 -2 -1 0 0 b 0 0 0 0 1 cost 1 0 -3 0 -5 0 5 0 0 u 0 1 1 w 1 -1 v 1 0 x 0 3
direction; 2 1; 0 5; a 1 1 0 -1 0 1 0 0 0 1 0 -1 0 -1 0 1 0 0 0 0 0 1 0 -1 0 -1 0 0 0 0 0 1 0 -1 1 -1 0 0 0 2 1 -2 -1 0 0 b 0 0 0 0 1 cost 0 0 0 0 -5 0 5 0 0 u 0 1 1 w 1 -1 v 1 0 x
weight; 2 1; 1 -1; a 1 1 0 -1 0 1 0 0 0 1 0 -1 0 -1 0 1 0 0 0 0 0 1 0 -1 0 0 0 0 0 0 0 1 0 -1 0 0 0 0 0 1 0 -1 0 -1 0 0 0 0 0 1 0 -1 1 -1 b 0 0 1 -1 0 0 cost 1 0 -3 0 0 0 0 0 0 u 0 1 1 w 1 -1 v 1 0 x 0 3";

/// A program by its name, with its vector.
fn name_of<F: Field>(word: &str, vector: Items<F>) -> Option<LpName<F>> {
    match word {
        "feasible" => Some(LpName::Feasible),
        "point" => Some(LpName::Benson { v: vector, t: true }),
        "direction" => Some(LpName::Benson {
            v: vector,
            t: false,
        }),
        "weight" => Some(LpName::Weight { w: vector }),
        _ => None,
    }
}

/// Whether the duality vector and that of the name have an entry for each objective.
fn has_widths<F: Field>(q: usize, c: &[F], name: &LpName<F>) -> bool
    ensures { IsTrue result → HasWidths q c.now name.now }
{
    match name {
        LpName::Feasible | LpName::Interior | LpName::Pointed => c.is_empty(),
        LpName::Benson { v, .. } => c.len() == q && v.len() == q,
        LpName::Weight { w } => c.len() == q && w.len() == q,
    }
}

/// Whether of the two unknowns of each entry of the weight one is 0.
fn is_split<F: Field>(z: &[F], m: usize, q: usize) -> bool
    requires { m + q + q ≤ length z.now }
    ensures { IsTrue result → IsSplit F.value m q z.now }
{
    for i in 0..q {
        if !is_zero(z[m + i]) && !is_zero(z[m + q + i]) {
            return false;
        }
    }
    true
}

/// Whether a solution has an entry for each unknown of a program of the sides, whose cone is in
/// dual form.
fn has_columns<F: Field>(form: &Data<F>, name: &LpName<F>, z: &[F]) -> bool
    ensures { IsTrue result → HasColumns F.value form.now name.now z.now }
{
    let m = form.sides.len();
    let q = form.p.len();
    match (name, &form.cone) {
        (LpName::Feasible, _) => z.len() == m,
        (LpName::Benson { .. } | LpName::Weight { .. }, ConeOf::Dual(vectors)) => {
            z.len() == m + q + q + vectors.len() && is_split(z, m, q)
        }
        _ => false,
    }
}

/// Whether there is a multiplier for each equation of such a program.
fn has_equations<F: Field>(form: &Data<F>, name: &LpName<F>, dual: &[F]) -> bool
    ensures { IsTrue result → HasEquations F.value form.now name.now dual.now }
{
    let n = form.cols as usize;
    let q = form.p.len();
    match (name, &form.cone) {
        (LpName::Feasible, _) => dual.len() == n,
        (LpName::Benson { .. }, ConeOf::Dual(_)) => dual.len() == n + q + 1,
        (LpName::Weight { .. }, ConeOf::Dual(_)) => dual.len() == n + q + q,
        _ => false,
    }
}

/// Appends a word and numbers.
fn put_list<F: Field>(text: &mut Bytes, word: &str, list: &[F]) -> Result<(), NoMemory> {
    text.append(word.as_bytes())?;
    put_numbers(text, list)
}

/// Appends a program.
fn put_system<F: Field>(text: &mut Bytes, system: &System<F>) -> Result<(), NoMemory> {
    put_list(text, "a", system.a.as_slice())?;
    put_list(text, " b", system.b.as_slice())?;
    put_list(text, " cost", system.cost.as_slice())
}

/// The greatest value of a program, where it has one.
fn optimum<F: Field>(alloc: Global, system: &System<F>) -> Option<LpEnd<F>> {
    let is_whole = system.b.len() == system.rows as usize
        && system.cost.len() == system.cols as usize
        && system.a.len() == system.rows as usize * system.cols as usize;
    if !is_whole {
        return None;
    }
    solve_lp(alloc, system).ok()
}

/// Appends what is read off a solution, and off the multipliers of the equations.
fn put_read<F: Field>(
    alloc: Global,
    text: &mut Bytes,
    form: &Data<F>,
    name: &LpName<F>,
    end: &LpEnd<F>,
) -> Option<()> {
    let LpEnd::Optimal { x, dual, .. } = end else {
        return None;
    };
    if !has_columns(form, name, x.as_slice()) || !has_equations(form, name, dual.as_slice()) {
        return None;
    }
    let read = parts(alloc, form, name, x.as_slice()).ok()?;
    put_list(text, " u", read.u.as_slice()).ok()?;
    put_list(text, " w", read.w.as_slice()).ok()?;
    put_list(text, " v", read.v.as_slice()).ok()?;
    let point = choice(alloc, form, name, dual.as_slice()).ok()?;
    put_list(text, " x", point.as_slice()).ok()
}

/// A program, and what is read off its solution.
fn answer<F: Field>(alloc: Global, form: &Data<F>, c: &[F], name: &LpName<F>) -> Option<Bytes> {
    if !has_widths(form.p.len(), c, name) {
        return None;
    }
    let system = program(alloc, form, c, name).ok()?;
    let mut text = Bytes::new(alloc);
    put_system(&mut text, &system).ok()?;
    let end = optimum(alloc, &system)?;
    put_read(alloc, &mut text, form, name, &end)?;
    Some(text)
}

/// Whether the program of a line is what it should be.
fn agrees<F: Field>(alloc: Global, line: &str) -> Option<bool> {
    let problem = read_vlp(alloc, FILE.as_bytes()).ok()?;
    let form = Data::<F>::of(alloc, &problem).ok()?;
    let mut words = line.split(';');
    let word = words.next()?;
    let c = numbers(alloc, words.next()?)?;
    let name = name_of(word, numbers(alloc, words.next()?)?)?;
    let text = answer(alloc, &form, c.as_slice(), &name)?;
    Some(begins(&text, words.next()?))
}

#[test]
fn programs_are_named(rt: HostRuntime) {
    for line in PROGRAMS.lines() {
        assert!(rt; agrees::<Frac>(rt.alloc(), line) == Some(true), "{line}");
        assert!(rt; agrees::<Tiny>(rt.alloc(), line) == Some(true), "{line}");
    }
}
