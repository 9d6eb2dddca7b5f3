//! The begin of a conversion: its lines, the rows that it starts with, and their double
//! description.
ghost use Rattle.std.specs.Prelude.{◌≡◌, ◌<◌, All, IfErr, IfOk, length};
ghost use Rattle.frac128.specs.Held.{is_held};
ghost use Rattle.lin_rows.specs.Sums.{AreHeld};
ghost use Rattle.rep_conv.specs.Live.{state};
ghost use Rattle.rep_conv.specs.Rows.{text_rows};
ghost use Rattle.rep_convert.specs.Licensed.{IsConvLeft};
ghost use Rattle.rep_convert.specs.Lines.{AreLinesOf, marks_of};
ghost use Rattle.rep_convert.specs.Started.{IsStarted};
ghost use Rattle.rep_convert.specs.Standing.{StandsAt, line_places};

use crate::fault::ConvFault;
use crate::keys::Keys;
use crate::lines::lines_of;
use crate::log::{lines_log, push_start};
use crate::start::{Started, start};
use double_descr::Dd;
use frac128::{Frac, Vector, Vectors};
use lineality::line_places::places_of;
use rep_text::{ConvLog, Rep};
use src_sink::{Items, NoMemory};
use std::alloc::Global;

/// A conversion that has begun.
#[derive(Drop)]
pub(crate) struct Begun {
    pub(crate) lines: Vectors,
    /// For each place but the last whether it is that of a line.
    pub(crate) places: Items<bool>,
    /// The numbers of the rows in use, rising.
    pub(crate) picks: Items<u32>,
    pub(crate) log: ConvLog,
    pub(crate) dd: Dd<Frac>,
}

/// For each place but the last whether it is that of a line.
fn marks_of(alloc: Global, rep: &Rep, lines: &[Vector]) -> Result<Items<bool>, NoMemory>
    ensures { IfOk result (λ places. places ≡ marks_of rep.now lines.now) }
{
    places_of(alloc, rep.width, lines)
}

/// The log of the lines and of the start.
fn begun_log(
    alloc: Global,
    rep: &Rep,
    lines: &[Vector],
    started: &Started,
) -> Result<ConvLog, NoMemory>
    requires some { 0 < length (text_rows rep.now) }
    requires lines { AreLinesOf rep.now lines.now }
    requires held { All (λ r. All (λ d. AreHeld is_held r d (length r)) lines.now)
        (text_rows rep.now) }
    requires started { IsStarted rep.now lines.now started.now.picks started.now.gens
        started.now.dd }
    ensures stands { IfOk result (λ log. StandsAt rep.now log started.now.dd) }
    ensures lines { IfOk result (λ log. (state rep.now log).lines ≡ lines.now) }
    ensures picks { IfOk result (λ log. (state rep.now log).used ≡ started.now.picks) }
{
    let mut log = lines_log(alloc, lines)?;
    push_start(
        alloc,
        &mut log,
        started.picks.as_slice(),
        started.gens.as_slice(),
    )?;
    Ok(log)
}

/// Begins a conversion, where there are rows.
pub(crate) fn begin(
    alloc: Global,
    rep: &Rep,
    rows: &[Vector],
    keys: &Keys,
) -> Result<Begun, ConvFault>
    requires rows { rows.now ≡ text_rows rep.now }
    requires some { 0 < length rows.now }
    ensures stands { IfOk result (λ begun. StandsAt rep.now begun.log begun.dd) }
    ensures lines { IfOk result (λ begun. begun.lines ≡ (state rep.now begun.log).lines) }
    ensures places { IfOk result (λ begun. begun.places ≡ line_places rep.now begun.log) }
    ensures picks { IfOk result (λ begun. begun.picks ≡ (state rep.now begun.log).used) }
    ensures left { IfErr result (IsConvLeft is_held rep.now) }
{
    let lines = lines_of(alloc, rep, rows)?;
    let places = marks_of(alloc, rep, lines.as_slice())?;
    let started = start(alloc, rep, lines.as_slice(), places.as_slice(), rows, keys)?;
    let log = begun_log(alloc, rep, lines.as_slice(), &started)?;
    let Started { picks, dd, .. } = started;
    Ok(Begun {
        lines,
        places,
        picks,
        log,
        dd,
    })
}
