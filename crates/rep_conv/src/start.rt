//! A `start` entry: rows, and for each the generator at which it alone is positive.
ghost use Rattle.std.specs.Prelude.{◌≡◌, ⊤, ◌+◌, ◌*◌, ◌^◌, ◌<◌, ◌≤◌, ◌==◌, ◌&&◌, suc, true, length};
ghost use Rattle.std.specs.List.{flat_map, enumerate_from};
ghost use Rattle.frac128.specs.Held.{is_held};
ghost use Rattle.log_rules.specs.CutEvents.{rises as numbers_rise};
ghost use Rattle.log_rules.specs.Runs.{Runs, RunsAll, steps};
ghost use Rattle.polyhedra.specs.DoubleDescription.{norming as norming_of};
ghost use Rattle.rep_conv.specs.Events.{all_below as numbers_below, corners_events, generator_events, is_first as is_first_of, start_events};
ghost use Rattle.rep_conv.specs.Rows.{text_rows};
ghost use Rattle.upper_image.specs.Spots.{pieces};

use crate::line::pass_both;
use entry_checks::{Steps, is_reduced, leading_entry, magnitude, meets_direction, pass, rises};
use frac128::{Frac, Vector, is_zero};
use log_rules::{Rule, Stop};
use rep_text::Rep;

/// Whether each number is less than `bound`.
fn are_all_below(bound: usize, numbers: &[u32]) -> bool
    ensures { result ≡ numbers_below bound numbers.now }
{
    numbers.iter().all(|k| (*k as usize) < bound)
}

/// The entry that norms a vector: the last one or, where that is 0, the first that is not.
pub fn norming_entry(v: &[Frac]) -> Frac
    ensures { result ≡ norming_of v.now }
{
    if v.is_empty() {
        return Frac::from(0);
    }
    let last = v[v.len() - 1];
    if is_zero(last) {
        leading_entry(v)
    } else {
        last
    }
}

/// Whether a vector is reduced and normed.
fn is_first(lines: &[Vector], v: &[Frac]) -> bool
    ensures { result ≡ is_first_of lines.now v.now }
{
    is_reduced(lines, v) && magnitude(norming_entry(v)) == Frac::from(1)
}

/// The tests that the named rows are 0 at a generator, but that of its number, which is positive.
fn meets_rows(
    counter: &mut Steps,
    rep: &Rep,
    rows: &[Vector],
    named: &[u32],
    number: usize,
    generator: &[Frac],
) -> Result<(), Stop>
    requires rows { rows.now ≡ text_rows rep.now }
    requires named { numbers_below (length rows.now) named.now ≡ true }
    requires width { length generator.now ≡ suc rep.now.width }
    requires room { counter.old.taken
        + steps (corners_events rep.now (number, generator.now) named.now) < 2 ^ 63 }
    ensures { Runs is_held (corners_events rep.now (number, generator.now) named.now)
        counter.old.taken counter.new.taken (λ _. ⊤) result }
{
    for (i, place) in named.iter().enumerate() {
        let row = rows[*place as usize].as_slice();
        meets_direction(counter, row, i + 1 == number, generator)?;
    }
    Ok(())
}

/// The tests of the generator of this number.
fn check_generator(
    counter: &mut Steps,
    rep: &Rep,
    rows: &[Vector],
    lines: &[Vector],
    named: &[u32],
    number: usize,
    generator: &[Frac],
) -> Result<(), Stop>
    requires rows { rows.now ≡ text_rows rep.now }
    requires named { numbers_below (length rows.now) named.now ≡ true }
    requires width { length generator.now ≡ suc rep.now.width }
    requires room { counter.old.taken
        + steps (generator_events rep.now lines.now named.now (number, generator.now)) < 2 ^ 63 }
    ensures { Runs is_held (generator_events rep.now lines.now named.now (number, generator.now))
        counter.old.taken counter.new.taken (λ _. ⊤) result }
{
    pass(Rule::Corner, is_first(lines, generator))?;
    meets_rows(counter, rep, rows, named, number, generator)
}

/// The tests of each generator in turn.
fn check_generators(
    counter: &mut Steps,
    rep: &Rep,
    rows: &[Vector],
    lines: &[Vector],
    named: &[u32],
    gens: &[Frac],
) -> Result<(), Stop>
    requires rows { rows.now ≡ text_rows rep.now }
    requires named { numbers_below (length rows.now) named.now ≡ true }
    requires few { length named.now ≤ 20 }
    requires entries { length gens.now ≡ length named.now * suc rep.now.width }
    requires room { counter.old.taken
        + steps (flat_map (generator_events rep.now lines.now named.now)
        (enumerate_from 1 (pieces (length named.now) (suc rep.now.width) gens.now)))
        < 2 ^ 63 }
    ensures { Runs is_held (flat_map (generator_events rep.now lines.now named.now)
        (enumerate_from 1 (pieces (length named.now) (suc rep.now.width) gens.now)))
        counter.old.taken counter.new.taken (λ _. ⊤) result }
{
    let places = rep.width as usize + 1;
    for j in 0..named.len() {
        let from = j * places;
        let generator = &gens[from..from + places];
        check_generator(counter, rep, rows, lines, named, j + 1, generator)?;
    }
    Ok(())
}

/// Whether the lists of a `start` entry have the lengths that belong to vectors of so many entries.
fn lists_fit(places: usize, lines: &[Vector], named: &[u32], gens: &[Frac]) -> bool
    requires { places ≤ 20 }
    ensures { result ≡ (length named.now + length lines.now == places
        && length gens.now == length named.now * places) }
{
    named.len() + lines.len() == places && gens.len() == named.len() * places
}

/// Whether the numbers rise and are less than `bound`.
fn are_picks(bound: usize, named: &[u32]) -> bool
    ensures { result ≡ (numbers_rise named.now && numbers_below bound named.now) }
{
    rises(named) && are_all_below(bound, named)
}

/// The tests of a `start` entry after these lines. They cost the square of the number of its rows
/// times their width.
pub fn check_start(
    rep: &Rep,
    rows: &[Vector],
    lines: &[Vector],
    named: &[u32],
    gens: &[Frac],
) -> Result<(), Stop>
    requires rows { rows.now ≡ text_rows rep.now }
    ensures { RunsAll is_held (start_events rep.now lines.now named.now gens.now) (λ _. ⊤) result }
{
    let places = rep.width as usize + 1;
    pass_both(
        Rule::Length,
        lists_fit(places, lines, named, gens),
        Rule::Index,
        are_picks(rows.len(), named),
    )?;
    let mut counter = Steps { taken: 0 };
    check_generators(&mut counter, rep, rows, lines, named, gens)
}
