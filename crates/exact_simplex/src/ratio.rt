//! The choice of a column and of a row: the signs of a cost row, and the lexicographic order of the
//! quotients of rows.

ghost use Rattle.std.specs.Prelude.{◌≡◌, ◌≢◌, ◌+◌, ◌<◌, ◌≤◌, ℕ, ⊤, length, IfOk, IfErr, MatchOption};
ghost use Rattle.exact_field.specs.Order.{cmp_ℚ};
ghost use Rattle.exact_field.specs.Rational.{zero_ℚ, ◌/ℚ◌};
ghost use Rattle.lin_rows.specs.Lines.{AreLines, entries, lines, Rises, sum_at};
ghost use Rattle.exact_simplex.specs.Candidates.{IsBetterColumn, IsEnteringCandidate};
ghost use Rattle.exact_simplex.specs.Ratios.{IsEither, IsEitherAt, IsEntering, IsLeaving, IsTestLeft, IsTestOf, ratios};
ghost use Rattle.tableaux.specs.Lex.{lex_less};

use crate::measure::{magnitude, measure};
use exact_field::{Field, Left, is_negative, is_positive};
use lin_rows::spots::{Spot, entry_at};
use std::cmp::Ordering;

/// Which of two rows an overflow concerns.
pub enum Either<F> {
    /// A quotient of the first row.
    First(Left<F>),
    /// A quotient of the second row.
    Second(Left<F>),
}

/// How the quotients of two rows compare at one column.
fn compare_at<F: Field>(
    u: &[Spot<F>],
    p: F,
    v: &[Spot<F>],
    r: F,
    col: u32,
) -> Result<Ordering, Either<F>>
    requires first { F.value p ≢ zero_ℚ }
    requires second { F.value r ≢ zero_ℚ }
    ensures ok { (n : ℕ) → Rises n 0 (entries F.value u.now) → Rises n 0 (entries F.value v.now)
        → IfOk result (λ order. order
        ≡ cmp_ℚ (sum_at (entries F.value u.now) col /ℚ F.value p)
        (sum_at (entries F.value v.now) col /ℚ F.value r)) }
    ensures left { (n : ℕ) → Rises n 0 (entries F.value u.now) → Rises n 0 (entries F.value v.now)
        → IfErr result (IsEitherAt F.value F.holds (F.value p) (entries F.value u.now) (F.value r)
        (entries F.value v.now) col) }
{
    let a = match entry_at(u, col).div(p) {
        Ok(a) => a,
        Err(left) => return Err(Either::First(left)),
    };
    let b = match entry_at(v, col).div(r) {
        Ok(b) => b,
        Err(left) => return Err(Either::Second(left)),
    };
    Ok(a.cmp(&b))
}

/// Whether the quotients of one row by `p`, at these columns, stand before those of another by `r`.
fn is_before<F: Field>(
    u: &[Spot<F>],
    p: F,
    v: &[Spot<F>],
    r: F,
    columns: &[u32],
) -> Result<bool, Either<F>>
    requires first { F.value p ≢ zero_ℚ }
    requires second { F.value r ≢ zero_ℚ }
    ensures ok { (n : ℕ) → Rises n 0 (entries F.value u.now) → Rises n 0 (entries F.value v.now)
        → IfOk result (λ before. before
        ≡ lex_less (ratios (F.value p) (entries F.value u.now) columns.now)
        (ratios (F.value r) (entries F.value v.now) columns.now)) }
    ensures left { (n : ℕ) → Rises n 0 (entries F.value u.now) → Rises n 0 (entries F.value v.now)
        → IfErr result (IsEither F.value F.holds (F.value p) (entries F.value u.now) (F.value r)
        (entries F.value v.now) columns.now) }
{
    for column in columns {
        match compare_at(u, p, v, r, *column)? {
            Ordering::Less => return Ok(true),
            Ordering::Greater => return Ok(false),
            Ordering::Equal => {}
        }
    }
    Ok(false)
}

/// What the ratio test left, with the row that it looked at.
#[derive(Debug, Drop)]
pub struct TestLeft<F: Drop> {
    /// The row, counted from 0.
    pub row: usize,
    /// The quotient that is not held.
    pub left: Left<F>,
}

/// The row that the overflow concerns.
fn test_left<F: Field>(first: usize, second: usize, either: Either<F>) -> TestLeft<F>
    ensures { IsTestOf first second either result }
{
    match either {
        Either::First(left) => TestLeft { row: first, left },
        Either::Second(left) => TestLeft { row: second, left },
    }
}

/// The least row of the first `i + 1`, where `best` is that of the first `i`.
fn take_better<F: Field>(
    rows: &[Vec<Spot<F>>],
    i: usize,
    best: Option<usize>,
    col: u32,
    columns: &[u32],
) -> Result<Option<usize>, TestLeft<F>>
    requires inside { i < length rows.now }
    requires found { MatchOption best ⊤ (λ r. r < length rows.now) }
    requires lines { (n : ℕ) × AreLines n (lines F.value rows.now)
        × IsLeaving (lines F.value rows.now) col columns.now i best }
    ensures found { IfOk result (λ r. MatchOption r ⊤ (λ r. r < length rows.now)) }
    ensures ok { (n : ℕ) → AreLines n (lines F.value rows.now)
        → IsLeaving (lines F.value rows.now) col columns.now i best
        → IfOk result (IsLeaving (lines F.value rows.now) col columns.now (i + 1)) }
    ensures left { (n : ℕ) → AreLines n (lines F.value rows.now)
        → IfErr result (λ test. IsTestLeft F.value F.holds (lines F.value rows.now) col columns.now
        test.row test.left) }
    ensures row { IfErr result (λ test. test.row ≤ i) }
{
    let p = entry_at(&rows[i], col);
    if !is_positive(p) {
        return Ok(best);
    }
    match best {
        None => Ok(Some(i)),
        Some(b) => {
            let r = entry_at(&rows[b], col);
            match is_before(&rows[i], p, &rows[b], r, columns) {
                Err(either) => Err(test_left(i, b, either)),
                Ok(true) => Ok(Some(i)),
                Ok(false) => Ok(Some(b)),
            }
        }
    }
}

/// The ratio test over the first `count` rows: the row with the lexicographically least quotients,
/// if any has a positive entry.
pub fn find_leaving<F: Field>(
    rows: &[Vec<Spot<F>>],
    count: usize,
    col: u32,
    columns: &[u32],
) -> Result<Option<usize>, TestLeft<F>>
    requires inside { count ≤ length rows.now }
    requires lines { (n : ℕ) × AreLines n (lines F.value rows.now) }
    ensures ok { IfOk result (IsLeaving (lines F.value rows.now) col columns.now count) }
    ensures left { IfErr result (λ test. IsTestLeft F.value F.holds (lines F.value rows.now) col
        columns.now test.row test.left) }
    ensures row { IfErr result (λ test. test.row < count) }
{
    let mut best = None;
    for i in 0..count {
        best = take_better(rows, i, best, col, columns)?;
    }
    Ok(best)
}

/// A column that may enter, and how well it serves.
#[derive(Clone, Copy)]
struct Candidate {
    col: u32,
    score: u32,
}

/// The better of a column and the best so far: that whose cost is the greater in magnitude beside
/// its greatest entry.
fn better_column<F: Field>(spot: Spot<F>, greatest: &[u32], best: Option<Candidate>) -> Candidate
    ensures { IsBetterColumn spot.at best result }
{
    let entries = greatest.get(spot.at as usize).copied().unwrap_or(0);
    let score = (512 + magnitude(spot.value)).saturating_sub(entries);
    let own = Candidate {
        col: spot.at,
        score,
    };
    match best {
        None => own,
        Some(other) => { if other.score < score { own } else { other } }
    }
}

/// A column among the first `count` at which the row is negative: of those that serve best the
/// first.
fn best_column<F: Field>(row: &[Spot<F>], count: u32, greatest: &[u32]) -> Option<Candidate>
    ensures { (n : ℕ) → Rises n 0 (entries F.value row.now)
        → IsEnteringCandidate (entries F.value row.now) count result }
{
    let mut best = None;
    for spot in row {
        if spot.at <= count && is_negative(spot.value) {
            best = Some(better_column(*spot, greatest, best));
        }
    }
    best
}

/// A column among the first `count` at which the cost row is negative. `greatest` has the memory
/// for the magnitudes of the columns in the first `equations` rows.
pub fn find_entering<F: Field>(
    row: &[Spot<F>],
    count: u32,
    rows: &[Vec<Spot<F>>],
    equations: usize,
    greatest: &mut [u32],
) -> Option<u32>
    requires { equations ≤ length rows.now }
    ensures { (n : ℕ) → Rises n 0 (entries F.value row.now)
        → IsEntering (entries F.value row.now) count result }
{
    measure(rows, equations, greatest);
    match best_column(row, count, greatest) {
        None => None,
        Some(best) => Some(best.col),
    }
}
