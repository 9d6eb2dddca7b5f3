//! The end of a conversion: further rows, and what is read off.
ghost use Rattle.std.specs.Prelude.{◌≡◌, ◌<◌, IfErr, IfOk, length};
ghost use Rattle.frac128.specs.Held.{is_held};
ghost use Rattle.rep_conv.specs.Live.{state};
ghost use Rattle.rep_conv.specs.Rows.{text_rows};
ghost use Rattle.rep_convert.specs.Licensed.{IsConvLeft};
ghost use Rattle.rep_convert.specs.Standing.{IsConversion, StandsAt, line_places};

use crate::begin::Begun;
use crate::fault::ConvFault;
use crate::keys::Keys;
use crate::order::order_of;
use crate::start::filled_generators;
use crate::turn::take_all;
use frac128::Vectors;
use rep_conv::other_rep;
use rep_text::{ConvEntry, Rep};
use std::alloc::Global;

/// Brings all further rows into use, ends the log, and reads off the other representation.
pub(crate) fn finish(
    alloc: Global,
    rep: &Rep,
    rows: &Vectors,
    keys: &Keys,
    begun: &mut Begun,
) -> Result<Rep, ConvFault>
    requires rows { rows.now ≡ text_rows rep.now }
    requires some { 0 < length rows.now }
    requires stands { StandsAt rep.now begun.old.log begun.old.dd }
    requires lines { begun.old.lines ≡ (state rep.now begun.old.log).lines }
    requires places { begun.old.places ≡ line_places rep.now begun.old.log }
    requires picks { begun.old.picks ≡ (state rep.now begun.old.log).used }
    ensures ok { IfOk result
        (λ found. IsConversion rep.now (record { rep = found; log = begun.new.log })) }
    ensures left { IfErr result (IsConvLeft is_held rep.now) }
{
    let count = rows.len() as u32;
    let order = order_of(alloc, keys, count, rows.as_slice(), begun.picks.as_slice())?;
    let places = begun.places.as_slice();
    take_all(
        alloc,
        rep,
        rows.as_slice(),
        places,
        order.as_slice(),
        &mut begun.log,
        &mut begun.dd,
    )?;
    let generators = filled_generators(alloc, places, &begun.dd)?;
    begun.log.push(ConvEntry::End)?;
    let found = other_rep(
        alloc,
        rep,
        true,
        begun.lines.as_slice(),
        generators.as_slice(),
    )?;
    Ok(found)
}
