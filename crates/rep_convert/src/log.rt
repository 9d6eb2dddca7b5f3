//! The first entries of the log of a conversion.
ghost use Rattle.std.specs.Prelude.{◌≡◌, ◌++◌, ◌∷◌, [], All, IfOk, IsTrue, OnOk, map};
ghost use Rattle.exact_field.specs.Rational.{ℚ};
ghost use Rattle.word_lines.specs.Grammar.{is_formed};
ghost use Rattle.rep_text.specs.ConvText.{conv_grammar};
ghost use Rattle.rep_text.specs.declared.conv.ConvEntry.TheVariants as entry;
ghost use Rattle.std.specs.List.{flat_map};

use frac128::{Vector, Vectors};
use overflows::{fractions_are_written, naturals_are_written};
use rep_text::{ConvEntry, ConvLog};
use src_sink::{Items, NoMemory};
use std::alloc::Global;

/// Appends the entry of a line.
fn push_line(alloc: Global, log: &mut ConvLog, d: &Vector) -> Result<(), NoMemory>
    ensures ok { OnOk result (log.new ≡ log.old ++ entry.Line d.now ∷ []) }
    ensures written { IsTrue (is_formed conv_grammar (entry.Line d.now)) }
{
    fractions_are_written(d.as_slice());
    let mut copy = Items::new(alloc);
    copy.append(d.as_slice())?;
    log.push(ConvEntry::Line { d: copy })
}

/// A log that has the version and these lines.
pub(crate) fn lines_log(alloc: Global, lines: &[Vector]) -> Result<ConvLog, NoMemory>
    ensures log { IfOk result (λ log. log ≡ entry.Conv 1 ∷ map entry.Line lines.now) }
    ensures written { IfOk result (λ log. All (λ e. IsTrue (is_formed conv_grammar e)) log) }
{
    let mut log = Items::new(alloc);
    log.push(ConvEntry::Conv(1))?;
    for line in lines {
        push_line(alloc, &mut log, line)?;
    }
    Ok(log)
}

/// Vectors, one after the other.
fn join(alloc: Global, vectors: &[Vector]) -> Result<Vector, NoMemory>
    ensures { IfOk result (λ list. list ≡ flat_map (λ v. v) vectors.now) }
{
    let mut list = Items::new(alloc);
    for vector in vectors {
        list.append(vector.as_slice())?;
    }
    Ok(list)
}

/// Appends the entry of the start with these rows and generators.
pub(crate) fn push_start(
    alloc: Global,
    log: &mut ConvLog,
    picks: &[u32],
    gens: &[Vector],
) -> Result<(), NoMemory>
    ensures ok { OnOk result
        (log.new ≡ log.old ++ entry.Start picks.now (flat_map (λ v. v) gens.now) ∷ []) }
    ensures written { OnOk result
        (IsTrue (is_formed conv_grammar (entry.Start picks.now (flat_map (λ v. v) gens.now)))) }
{
    let gens = join(alloc, gens)?;
    fractions_are_written(gens.as_slice());
    naturals_are_written(picks);
    let mut rows = Items::new(alloc);
    rows.append(picks)?;
    let _count = rows.len();
    log.push(ConvEntry::Start { rows, gens })
}
