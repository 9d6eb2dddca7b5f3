//! The fault line of an operation whose exact result is not held.
ghost use Rattle.std.specs.Prelude.{◌≡◌, ◌++◌, ◌∷◌, [], codes, decimal, IfOk, OnOk};
ghost use Rattle.word_lines.specs.Printing.{spaced};
ghost use Rattle.commands.specs.Names.{operation_name, family_name};
ghost use Rattle.commands.specs.Text.{operation_words, place_words, basis_words, licence_text, weigh_text};

use crate::words::{put_named, put_word};
use deriv_log::{Family, Licence, Place};
use exact_field::{Left, Op};
use frac128::Frac;
use sol_writer::{put_natural, put_number};
use src_sink::{Bytes, NoMemory};
use std::alloc::Global;
use word_lines::put_naturals;

/// The name of an operation.
fn operation_name(op: Op) -> &'static [u8]
    ensures { result.now ≡ operation_name op }
{
    match op {
        Op::Add => b"add",
        Op::Sub => b"sub",
        Op::Mul => b"mul",
        Op::Div => b"div",
    }
}

/// The name of a family of rows.
fn family_name(family: Family) -> &'static [u8]
    ensures { result.now ≡ family_name family }
{
    match family {
        Family::Image => b"image",
        Family::Exchanged => b"exchanged",
        Family::ConeRows => b"cone",
        Family::Rep => b"rep",
    }
}

/// Appends an operation and its operands.
fn put_operation(left: &Left<Frac>, into: &mut Bytes) -> Result<(), NoMemory>
    ensures { OnOk result (into.new ≡ into.old ++ spaced (operation_words left.now)) }
{
    put_word(operation_name(left.op), into)?;
    put_number(left.a, into)?;
    put_number(left.b, into)?;
    Ok(())
}

/// Appends the place of an addition of a row.
fn put_pair(
    family: Family,
    first: u32,
    second: u32,
    step: u64,
    into: &mut Bytes,
) -> Result<(), NoMemory>
    ensures { OnOk result (into.new
        ≡ into.old
        ++ spaced (codes "pair" ∷ family_name family ∷ decimal first ∷ decimal second
        ∷ decimal step ∷ [])) }
{
    put_word(b"pair", into)?;
    put_named(
        family_name(family),
        &[u64::from(first), u64::from(second), step],
        into,
    )
}

/// Appends a place, without its basis.
fn put_place(place: &Place, into: &mut Bytes) -> Result<(), NoMemory>
    ensures { OnOk result (into.new ≡ into.old ++ spaced (place_words place.now)) }
{
    match place {
        Place::Pivot { row, col, step, .. } => put_named(
            b"pivot",
            &[u64::from(*row), u64::from(*col), u64::from(*step)],
            into,
        ),
        Place::Elim { row, col, step, .. } => put_named(
            b"elim",
            &[u64::from(*row), u64::from(*col), u64::from(*step)],
            into,
        ),
        Place::Pair {
            family,
            first,
            second,
            step,
            ..
        } => put_pair(*family, *first, *second, *step, into),
        Place::Exchange { step, .. } => put_named(b"exchange", &[*step], into),
        Place::Scale { entry, .. } => put_named(b"scale", &[u64::from(*entry)], into),
        Place::Step { entry, step } => put_named(b"step", &[u64::from(*entry), *step], into),
    }
}

/// Appends the basis of a place that has one.
fn put_basis(place: &Place, into: &mut Bytes) -> Result<(), NoMemory>
    ensures { OnOk result (into.new ≡ into.old ++ spaced (basis_words place.now)) }
{
    match place {
        Place::Pivot { basis, .. } => put_naturals(basis.as_slice(), into),
        Place::Elim { basis, .. } => put_naturals(basis.as_slice(), into),
        Place::Pair { .. } | Place::Exchange { .. } | Place::Scale { .. } | Place::Step { .. } => {
            Ok(())
        }
    }
}

/// The fault line of a licence: the place, the operation with its operands, and the basis where the
/// place has one. The trail and the vectors of the place are not told.
pub fn licence_line(alloc: Global, licence: &Licence) -> Result<Bytes, NoMemory>
    ensures { IfOk result (λ text. text ≡ licence_text licence.now) }
{
    let mut text = Bytes::new(alloc);
    text.append(b"fault 5")?;
    put_place(&licence.place, &mut text)?;
    put_operation(&licence.left, &mut text)?;
    put_basis(&licence.place, &mut text)?;
    text.push(b'\n')?;
    Ok(text)
}

/// The fault line of a product of weights, by the number of what they are multiplied with.
pub(crate) fn weigh_line(alloc: Global, item: u64, left: &Left<Frac>) -> Result<Bytes, NoMemory>
    ensures { IfOk result (λ text. text ≡ weigh_text item left.now) }
{
    let mut text = Bytes::new(alloc);
    text.append(b"fault 17")?;
    put_natural(item as usize, &mut text)?;
    put_operation(left, &mut text)?;
    text.push(b'\n')?;
    Ok(text)
}
