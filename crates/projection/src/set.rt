//! The sections of a projection that is found, and the lines of what shows it.
ghost use Rattle.std.specs.Prelude.{◌≡◌, ◌++◌, codes, OnOk};
ghost use Rattle.std.specs.List.{flat_map};
ghost use Rattle.src_sink.specs.Texts.{line_text};
ghost use Rattle.log_rules.specs.Report.{vector_line, section};
ghost use Rattle.sol_writer.specs.Lines.{lines_text};
ghost use Rattle.projection.specs.declared.found.Projection.TheVariants.{Found};
ghost use Rattle.projection.specs.Text.{side_line, set_lines, witness_lines};

use log_rules::{Facet, Gen, LineGen};
use sol_writer::{
    put_counted, put_entries, put_generators, put_line_lines, put_number, put_preimages, put_ways,
};
use src_sink::{Bytes, NoMemory};

/// Appends the section of the lines.
fn put_lines(lines: &[LineGen], into: &mut Bytes) -> Result<(), NoMemory>
    ensures { OnOk result (into.new ≡ into.old
        ++ lines_text (section (codes "lines") (λ l. vector_line (codes "l") l.d) lines.now)) }
{
    put_counted(b"lines", lines.len(), into)?;
    put_line_lines(lines, into)?;
    Ok(())
}

/// Appends the line of a side.
fn put_side(side: &Facet, into: &mut Bytes) -> Result<(), NoMemory>
    ensures { OnOk result (into.new ≡ into.old ++ line_text (side_line side.now)) }
{
    into.push(b'h')?;
    put_entries(side.w.as_slice(), into)?;
    put_number(side.gamma, into)?;
    into.push(b'\n')?;
    Ok(())
}

/// Appends the line of each side.
fn put_side_lines(sides: &[Facet], into: &mut Bytes) -> Result<(), NoMemory>
    ensures { OnOk result (into.new
        ≡ into.old ++ flat_map (λ f. line_text (side_line f)) sides.now) }
{
    for side in sides {
        put_side(side, into)?;
    }
    Ok(())
}

/// Appends the section of the sides.
fn put_sides(sides: &[Facet], into: &mut Bytes) -> Result<(), NoMemory>
    ensures { OnOk result (into.new
        ≡ into.old ++ lines_text (section (codes "sides") side_line sides.now)) }
{
    put_counted(b"sides", sides.len(), into)?;
    put_side_lines(sides, into)?;
    Ok(())
}

/// Appends the sections of what is found.
pub(crate) fn put_found(
    lines: &[LineGen],
    points: &[Gen],
    directions: &[Gen],
    sides: &[Facet],
    into: &mut Bytes,
) -> Result<(), NoMemory>
    ensures { OnOk result (into.new ≡ into.old
        ++ lines_text (set_lines (Found lines.now points.now directions.now sides.now))) }
{
    put_lines(lines, into)?;
    put_generators(b"points", b"1", points, into)?;
    put_generators(b"directions", b"0", directions, into)?;
    put_sides(sides, into)?;
    Ok(())
}

/// Appends what shows the lines, points and directions.
pub(crate) fn put_shown(
    lines: &[LineGen],
    points: &[Gen],
    directions: &[Gen],
    sides: &[Facet],
    into: &mut Bytes,
) -> Result<(), NoMemory>
    ensures { OnOk result (into.new ≡ into.old
        ++ lines_text (witness_lines (Found lines.now points.now directions.now sides.now))) }
{
    put_ways(lines, into)?;
    put_preimages(b"x", points, into)?;
    put_preimages(b"r", directions, into)?;
    Ok(())
}
