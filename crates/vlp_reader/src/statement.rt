//! What the words of a line say.
ghost use Rattle.std.specs.Prelude.{◌≡◌, Result};
ghost use Rattle.vlp_reader.specs.Lines.{words_of};
ghost use Rattle.vlp_reader.specs.Statements.{single_bound, double_bound, bound_of};

use crate::fault::FileKind;
use crate::number::number;
use crate::sizes::Sizes;
use crate::text::{letter, natural, next_word};
use frac128::Frac;
use vlp_problem::{Axis, Bound};

/// The matrices whose entries lines give. The duality vector is one of a single column.
#[derive(Clone, Copy, Debug)]
pub enum Matrix {
    Constraints,
    Objectives,
    ConeVectors,
    Duality,
}

/// What the words of a line say. Where a word should be a number, this is its value, or what is
/// wrong with it.
#[derive(Clone, Copy, Debug)]
pub enum Statement {
    /// Nothing, as a blank line or a comment.
    Silent,
    /// The sizes of the problem.
    Heading(Sizes),
    /// The entry of a matrix at a row and a column.
    Entry(Matrix, u32, u32, Result<Frac, FileKind>),
    /// The bounds of a row or column of this number.
    Limit(Axis, u32, Result<Bound, FileKind>),
    /// The last line that is looked at.
    End,
}

/// The bounds of a type with one number.
fn one_bound(kind: u8, number: Result<Frac, FileKind>) -> Option<Result<Bound, FileKind>>
    ensures { result ≡ single_bound kind number }
{
    match kind {
        b'l' => Some(number.map(Bound::Lower)),
        b'u' => Some(number.map(Bound::Upper)),
        b's' => Some(number.map(Bound::Fixed)),
        _ => None,
    }
}

/// A lower and an upper bound.
fn two_bounds(low: Result<Frac, FileKind>, high: Result<Frac, FileKind>) -> Result<Bound, FileKind>
    ensures { result ≡ double_bound low high }
{
    Ok(Bound::Double(low?, high?))
}

/// The bounds of a type with the words after it.
fn bounds(kind: u8, words: &[u8]) -> Option<Result<Bound, FileKind>>
    ensures { result ≡ bound_of kind (words_of words.now) }
{
    let Some((first, rest)) = next_word(words) else {
        return if kind == b'f' {
            Some(Ok(Bound::Free))
        } else {
            None
        };
    };
    let Some((second, rest)) = next_word(rest) else {
        return one_bound(kind, number(first));
    };
    if next_word(rest).is_some() || kind != b'd' {
        return None;
    }
    Some(two_bounds(number(first), number(second)))
}

impl Statement {
    ghost use Rattle.vlp_reader.specs.Statements.{entry_of, limit_of, in_cone, statement_of};
    ghost use Rattle.std.specs.Option.{option_map};

    /// An entry, from the words i j v.
    fn entry(matrix: Matrix, words: &[u8]) -> Option<Statement>
        ensures { result ≡ entry_of matrix (words_of words.now) }
    {
        let (row, rest) = next_word(words)?;
        let (col, rest) = next_word(rest)?;
        let (value, rest) = next_word(rest)?;
        if next_word(rest).is_some() {
            return None;
        }
        Some(Statement::Entry(matrix, natural(row)?, natural(col)?, number(value)))
    }

    /// An entry of a cone vector or of the duality vector, from the words i j v.
    fn cone_entry(words: &[u8]) -> Option<Statement>
        ensures { result ≡ option_map in_cone (entry_of Matrix.ConeVectors (words_of words.now)) }
    {
        match Statement::entry(Matrix::ConeVectors, words)? {
            Statement::Entry(_, row, 0, number) => {
                Some(Statement::Entry(Matrix::Duality, row, 1, number))
            }
            entry => Some(entry),
        }
    }

    /// Bounds, from the words of a row or column, of their type and of its numbers.
    fn limit(axis: Axis, words: &[u8]) -> Option<Statement>
        ensures { result ≡ limit_of axis (words_of words.now) }
    {
        let (at, rest) = next_word(words)?;
        let (kind, rest) = next_word(rest)?;
        Some(Statement::Limit(axis, natural(at)?, bounds(letter(kind), rest)?))
    }

    /// What the words after a first word of this letter say, where they have the form of its kind.
    pub(crate) fn read(kind: u8, words: &[u8]) -> Option<Statement>
        ensures { result ≡ statement_of kind (words_of words.now) }
    {
        match kind {
            b'p' => Sizes::read(words).map(Statement::Heading),
            b'a' => Statement::entry(Matrix::Constraints, words),
            b'o' => Statement::entry(Matrix::Objectives, words),
            b'k' => Statement::cone_entry(words),
            b'i' => Statement::limit(Axis::Row, words),
            b'j' => Statement::limit(Axis::Column, words),
            b'e' => Some(Statement::End),
            _ => None,
        }
    }
}
