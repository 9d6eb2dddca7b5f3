//! The fault lines of ordering cones and of empty parts.
ghost use Rattle.std.specs.Prelude.{◌≡◌, IfOk};
ghost use Rattle.commands.specs.Text.{shown_text, cone_fault_text, empty_part_text, part_name};

use crate::words::put_word;
use cone_rules::ConeFault;
use frac128::{Frac, Spot};
use src_sink::{Bytes, NoMemory};
use std::alloc::Global;
use word_lines::{put_sparse, put_vector};

/// The fault line of a fault with this name, and what shows it.
fn shown_line(alloc: Global, name: &[u8], w: &[Frac], m: &[Spot]) -> Result<Bytes, NoMemory>
    ensures { IfOk result (λ text. text ≡ shown_text name.now w.now m.now) }
{
    let mut text = Bytes::new(alloc);
    text.append(b"fault 4")?;
    put_word(name, &mut text)?;
    put_vector(w, &mut text)?;
    put_sparse(m, &mut text)?;
    text.push(b'\n')?;
    Ok(text)
}

/// The fault line of an ordering cone and its duality vector.
pub(crate) fn cone_fault_line(alloc: Global, fault: &ConeFault) -> Result<Bytes, NoMemory>
    ensures { IfOk result (λ text. text ≡ cone_fault_text fault.now) }
{
    match fault {
        ConeFault::NotSolid { w, m } => {
            shown_line(alloc, b"NotSolid", w.as_slice(), m.as_slice())
        }
        ConeFault::HasLine { d, m } => shown_line(alloc, b"HasLine", d.as_slice(), m.as_slice()),
        ConeFault::NotInterior { w, v } => {
            shown_line(alloc, b"NotInterior", w.as_slice(), v.as_slice())
        }
        ConeFault::LastNotPositive { m } => {
            shown_line(alloc, b"LastNotPositive", &[], m.as_slice())
        }
    }
}

fn part_name(second: bool) -> &'static [u8]
    ensures { result.now ≡ part_name second }
{
    if second { b"second" } else { b"first" }
}

/// The fault line of a part of a join without a feasible vector.
pub(crate) fn empty_part_line(alloc: Global, second: bool, u: &[Spot]) -> Result<Bytes, NoMemory>
    ensures { IfOk result (λ text. text ≡ empty_part_text second u.now) }
{
    let mut text = Bytes::new(alloc);
    text.append(b"fault 14")?;
    put_word(part_name(second), &mut text)?;
    put_sparse(u, &mut text)?;
    text.push(b'\n')?;
    Ok(text)
}
