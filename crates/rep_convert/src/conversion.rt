//! The conversion.
ghost use Rattle.std.specs.Prelude.{◌≡◌, ◌∷◌, [], IfErr, IfOk};
ghost use Rattle.frac128.specs.Held.{is_held};
ghost use Rattle.rep_conv.specs.Rows.{text_rows as rows_of};
ghost use Rattle.rep_text.specs.declared.conv.ConvEntry.TheVariants as entry;
ghost use Rattle.rep_convert.specs.Licensed.{IsConvLeft};
ghost use Rattle.rep_convert.specs.Standing.{IsConversion};

use crate::begin::{Begun, begin};
use crate::ends::finish;
use crate::fault::{ConvFault, Converted};
use crate::keys::keys_of;
use frac128::Vectors;
use rep_conv::{other_rep, text_rows};
use rep_text::{ConvEntry, ConvLog, Rep};
use src_sink::{Items, NoMemory};
use std::alloc::Global;

/// The log of a representation without rows.
fn empty_log(alloc: Global) -> Result<ConvLog, NoMemory>
    ensures { IfOk result (λ log. log ≡ entry.Conv 1 ∷ entry.End ∷ []) }
{
    let mut log = Items::new(alloc);
    log.push(ConvEntry::Conv(1))?;
    log.push(ConvEntry::End)?;
    Ok(log)
}

/// The conversion of a representation without rows.
fn convert_without_rows(alloc: Global, rep: &Rep) -> Result<Converted, NoMemory>
    requires { rows_of rep.now ≡ [] }
    ensures { IfOk result (IsConversion rep.now) }
{
    let log = empty_log(alloc)?;
    let none: Vectors = Items::new(alloc);
    let found = other_rep(alloc, rep, false, none.as_slice(), none.as_slice())?;
    Ok(Converted { rep: found, log })
}

/// Converts a representation of a polyhedron into the other one by double description, with a log
/// of it that `check_conv` of `rep_conv` accepts. Where an operation's exact result is not held, it
/// is told with its licence. The cost is that of one elimination of all rows, and of a step of
/// double description for each.
pub fn convert(alloc: Global, rep: &Rep) -> Result<Converted, ConvFault>
    ensures ok { IfOk result (IsConversion rep.now) }
    ensures left { IfErr result (IsConvLeft is_held rep.now) }
{
    let rows = text_rows(alloc, rep)?;
    if rows.len() == 0 {
        return Ok(convert_without_rows(alloc, rep)?);
    }
    let keys = keys_of(alloc, rep.gens, rows.as_slice())?;
    let mut begun = begin(alloc, rep, rows.as_slice(), &keys)?;
    let found = finish(alloc, rep, &rows, &keys, &mut begun)?;
    let Begun { log, .. } = begun;
    Ok(Converted { rep: found, log })
}
