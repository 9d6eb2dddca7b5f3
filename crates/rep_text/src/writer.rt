//! The printer of representations.
ghost use Rattle.std.specs.Prelude.{◌≡◌, ◌++◌, ◌∷◌, IfOk, OnOk};
ghost use Rattle.src_sink.specs.Texts.{line_text};
ghost use Rattle.rep_text.specs.RepText.{head_name, head_words, kind_name, rep_text, row_words};

use crate::rep::{Rep, RepKind, RepRow};
use src_sink::{Bytes, NoMemory};
use std::alloc::Global;
use word_lines::{put_count, put_items};

fn head_name(gens: bool) -> &'static [u8]
    ensures { result.now ≡ head_name gens }
{
    if gens { b"gens" } else { b"sides" }
}

fn kind_name(kind: RepKind) -> &'static [u8]
    ensures { result.now ≡ kind_name kind }
{
    match kind {
        RepKind::Side => b"h",
        RepKind::Equal => b"e",
        RepKind::Line => b"l",
        RepKind::Point => b"1",
        RepKind::Direction => b"0",
    }
}

/// Appends the first line.
fn put_head(gens: bool, width: u32, into: &mut Bytes) -> Result<(), NoMemory>
    ensures { OnOk result (into.new ≡ into.old ++ line_text (head_words gens width)) }
{
    into.append(head_name(gens))?;
    put_count(width as usize, into)?;
    into.push(b'\n')
}

/// Appends the line of a row.
fn put_row(row: &RepRow, into: &mut Bytes) -> Result<(), NoMemory>
    ensures { OnOk result (into.new ≡ into.old ++ line_text (row_words row.now)) }
{
    into.append(kind_name(row.kind))?;
    put_items(row.v.as_slice(), into)?;
    into.push(b'\n')?;
    Ok(())
}

/// The text of a representation.
pub fn print_rep(alloc: Global, rep: &Rep) -> Result<Bytes, NoMemory>
    ensures { IfOk result (λ text. text ≡ rep_text rep.now) }
{
    let mut text = Bytes::new(alloc);
    put_head(rep.gens, rep.width, &mut text)?;
    for row in rep.rows.as_slice() {
        put_row(row, &mut text)?;
    }
    text.append(b"end\n")?;
    Ok(text)
}
