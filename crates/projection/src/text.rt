//! The text.
ghost use Rattle.std.specs.Prelude.{◌≡◌, ◌++◌, ◌∷◌, [], codes, IfOk, OnOk};
ghost use Rattle.src_sink.specs.Texts.{line_text};
ghost use Rattle.sol_writer.specs.Lines.{lines_text};
ghost use Rattle.projection.specs.Text.{answer_name, head_lines, set_lines, witness_lines, projection_text};

use crate::found::Projection;
use crate::set::{put_found, put_shown};
use sol_writer::{put_counted, put_sparse_line};
use src_sink::{Bytes, NoMemory};
use std::alloc::Global;

/// Appends the line that tells whether anything is found.
fn put_kind(found: &Projection, into: &mut Bytes) -> Result<(), NoMemory>
    ensures { OnOk result (into.new
        ≡ into.old ++ line_text (codes "answer" ∷ answer_name found.now ∷ [])) }
{
    match found {
        Projection::Empty { .. } => into.append(b"answer infeasible\n"),
        Projection::Found { .. } => into.append(b"answer solved\n"),
    }
}

/// Appends the first lines: the version of these texts, the kind of answer, and the columns.
fn put_head(k: u32, found: &Projection, into: &mut Bytes) -> Result<(), NoMemory>
    ensures { OnOk result (into.new ≡ into.old ++ lines_text (head_lines k found.now)) }
{
    into.append(b"projection 1\n")?;
    put_kind(found, into)?;
    put_counted(b"columns", k as usize, into)?;
    Ok(())
}

/// Appends the lines, points, directions and sides.
fn put_set(found: &Projection, into: &mut Bytes) -> Result<(), NoMemory>
    ensures { OnOk result (into.new ≡ into.old ++ lines_text (set_lines found.now)) }
{
    match found {
        Projection::Empty { .. } => Ok(()),
        Projection::Found {
            lines,
            points,
            directions,
            sides,
        } => put_found(
            lines.as_slice(),
            points.as_slice(),
            directions.as_slice(),
            sides.as_slice(),
            into,
        ),
    }
}

/// Appends what shows it.
fn put_witnesses(found: &Projection, into: &mut Bytes) -> Result<(), NoMemory>
    ensures { OnOk result (into.new ≡ into.old ++ lines_text (witness_lines found.now)) }
{
    match found {
        Projection::Empty { u } => put_sparse_line(b"u", u.as_slice(), into),
        Projection::Found {
            lines,
            points,
            directions,
            sides,
        } => put_shown(
            lines.as_slice(),
            points.as_slice(),
            directions.as_slice(),
            sides.as_slice(),
            into,
        ),
    }
}

/// The text of a projection on the first k columns, line by line. Its cost is that of its length.
pub fn projection_text(alloc: Global, k: u32, found: &Projection) -> Result<Bytes, NoMemory>
    ensures { IfOk result (λ text. text ≡ projection_text k found.now) }
{
    let mut text = Bytes::new(alloc);
    put_head(k, found, &mut text)?;
    put_set(found, &mut text)?;
    text.append(b"witnesses\n")?;
    put_witnesses(found, &mut text)?;
    Ok(text)
}
