//! The parts of an entry, written as words, a blank before each.
ghost use Rattle.std.specs.Prelude.{◌≡◌, ◌++◌, OnOk};
ghost use Rattle.word_lines.specs.Parts as part;
ghost use Rattle.word_lines.specs.Parts.{part_words, end_word};
ghost use Rattle.word_lines.specs.Printing.{spaced};

use crate::items::{Printed, put_list};
use crate::part::{EndKind, LogPair};
use frac128::{Frac, Spot};
use src_sink::{Bytes, NoMemory};

/// Appends a natural number, a blank before it.
pub fn put_natural(value: u32, into: &mut Bytes) -> Result<(), NoMemory>
    ensures { OnOk result (into.new ≡ into.old ++ spaced (part_words (part.natural value))) }
{
    value.put(into)?;
    Ok(())
}

/// Appends a fraction, a blank before it.
pub fn put_number(value: Frac, into: &mut Bytes) -> Result<(), NoMemory>
    ensures { OnOk result (into.new ≡ into.old ++ spaced (part_words (part.number value))) }
{
    value.put(into)?;
    Ok(())
}

/// Appends a vector after its count.
pub fn put_vector(value: &[Frac], into: &mut Bytes) -> Result<(), NoMemory>
    ensures { OnOk result (into.new ≡ into.old ++ spaced (part_words (part.vector value.now))) }
{
    put_list(value, into)?;
    Ok(())
}

/// Appends natural numbers after their count.
pub fn put_naturals(value: &[u32], into: &mut Bytes) -> Result<(), NoMemory>
    ensures { OnOk result (into.new ≡ into.old ++ spaced (part_words (part.naturals value.now))) }
{
    put_list(value, into)?;
    Ok(())
}

/// Appends a sparse vector after its count.
pub fn put_sparse(value: &[Spot], into: &mut Bytes) -> Result<(), NoMemory>
    ensures { OnOk result (into.new ≡ into.old ++ spaced (part_words (part.sparse value.now))) }
{
    put_list(value, into)?;
    Ok(())
}

/// Appends pairs after their count.
pub fn put_pairs(value: &[LogPair], into: &mut Bytes) -> Result<(), NoMemory>
    ensures { OnOk result (into.new ≡ into.old ++ spaced (part_words (part.pairs value.now))) }
{
    put_list(value, into)?;
    Ok(())
}

fn kind_name(kind: EndKind) -> &'static [u8]
    ensures { result.now ≡ end_word kind }
{
    match kind {
        EndKind::Infeasible => b"infeasible",
        EndKind::Whole => b"whole",
        EndKind::NoVertex => b"novertex",
        EndKind::Solved => b"solved",
    }
}

/// Appends the kind of an end.
pub fn put_kind(kind: EndKind, into: &mut Bytes) -> Result<(), NoMemory>
    ensures { OnOk result (into.new ≡ into.old ++ spaced (part_words (part.kind kind))) }
{
    into.push(b' ')?;
    into.append(kind_name(kind))?;
    Ok(())
}
