//! A `line` entry: a vector at which each row is 0.
ghost use Rattle.std.specs.Prelude.{◌≡◌, ⊤, ◌+◌, ◌^◌, ◌<◌, ◌≤◌, ◌==◌, ℕ, All, [], ◌∷◌, length};
ghost use Rattle.std.specs.List.{flat_map};
ghost use Rattle.frac128.specs.Held.{is_held};
ghost use Rattle.log_rules.specs.Events.Event.{test};
ghost use Rattle.log_rules.specs.Runs.{Runs, RunsAll, steps};
ghost use Rattle.rep_conv.specs.Events.{line_events, tight_events};
ghost use Rattle.rep_conv.specs.Rows.{text_rows};

use entry_checks::{Steps, goes_on, pass};
use frac128::{Frac, Vector, is_zero};
use log_rules::{Rule, Stop};
use rep_text::Rep;

/// Two tests, one after the other.
pub fn pass_both(first: Rule, a: bool, second: Rule, b: bool) -> Result<(), Stop>
    ensures { (taken : ℕ)
        → Runs is_held (test first a ∷ test second b ∷ []) taken taken (λ _. ⊤) result }
{
    if !a {
        return Err(Stop::Wrong(first));
    }
    pass(second, b)
}

/// The test that a row is 0 at a vector.
fn is_tight(counter: &mut Steps, d: &[Frac], row: &[Frac]) -> Result<(), Stop>
    requires lengths { length row.now ≡ length d.now }
    requires room { counter.old.taken + steps (tight_events d.now row.now) < 2 ^ 63 }
    ensures { Runs is_held (tight_events d.now row.now) counter.old.taken counter.new.taken
        (λ _. ⊤) result }
{
    let product = counter.dot(row, d)?;
    pass(Rule::Corner, is_zero(product))
}

/// The same for each row.
fn are_tight(counter: &mut Steps, d: &[Frac], rows: &[Vector]) -> Result<(), Stop>
    requires widths { All (λ row. length row ≡ length d.now) rows.now }
    requires room { counter.old.taken + steps (flat_map (tight_events d.now) rows.now) < 2 ^ 63 }
    ensures { Runs is_held (flat_map (tight_events d.now) rows.now) counter.old.taken
        counter.new.taken (λ _. ⊤) result }
{
    for row in rows {
        is_tight(counter, d, row.as_slice())?;
    }
    Ok(())
}

/// The tests of a `line` entry after these lines: `d` goes on their reduced echelon form, and each
/// row is 0 at it. It costs the entries of the rows and of the lines.
pub fn check_line(rep: &Rep, rows: &[Vector], lines: &[Vector], d: &[Frac]) -> Result<(), Stop>
    requires rows { rows.now ≡ text_rows rep.now }
    requires few { length rows.now ≤ 4294967294 }
    ensures { RunsAll is_held (line_events rep.now lines.now d.now) (λ _. ⊤) result }
{
    let width = rep.width as usize + 1;
    pass_both(
        Rule::Length,
        d.len() == width,
        Rule::Scaled,
        goes_on(lines, d),
    )?;
    let mut counter = Steps { taken: 0 };
    are_tight(&mut counter, d, rows)
}
