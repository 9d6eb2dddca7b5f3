//! A row that comes into use: its entry, and the step of the double description.
ghost use Rattle.std.specs.Prelude.{◌≡◌, ◌<◌, ◌++◌, ◌∷◌, [], Contains, IfErr, IfOk, IsTrue, OnErr, OnOk, length, map};
ghost use Rattle.frac128.specs.Held.{is_held};
ghost use Rattle.word_lines.specs.Grammar.{is_formed};
ghost use Rattle.word_lines.specs.Parts.{is_formed_pair, is_formed_part};
ghost use Rattle.word_lines.specs.Parts.{pairs as pairs_part};
ghost use Rattle.rep_conv.specs.Live.{state};
ghost use Rattle.rep_conv.specs.Meets.{MeetsEnd};
ghost use Rattle.rep_conv.specs.Rows.{row_at, text_rows};
ghost use Rattle.rep_text.specs.ConvText.{conv_grammar};
ghost use Rattle.rep_text.specs.declared.conv.ConvEntry.TheVariants as entry;
ghost use Rattle.rep_convert.specs.Licensed.{IsConvLeft};
ghost use Rattle.rep_convert.specs.Order.{IsOrder};
ghost use Rattle.overflows.specs.Pairs.{named};
ghost use Rattle.rep_convert.specs.Standing.{StandsAt, line_places};

use crate::fault::ConvFault;
use deriv_log::Family;
use double_descr::{Dd, Pair};
use frac128::{Frac, Vector};
use lineality::line_places::row_without;
use overflows::add_fault;
use rep_text::{ConvEntry, ConvLog, Rep};
use src_sink::{Items, NoMemory};
use std::alloc::Global;
use word_lines::LogPair;

/// A pair as an entry names it.
fn log_pair(pair: Pair) -> LogPair
    ensures same { result ≡ named pair }
    ensures written { IsTrue (is_formed_pair result) }
{
    LogPair {
        plus: pair.plus,
        minus: pair.minus,
    }
}

/// Pairs as an entry names them.
fn log_pairs(alloc: Global, pairs: &[Pair]) -> Result<Items<LogPair>, NoMemory>
    ensures same { IfOk result (λ list. list ≡ map named pairs.now) }
    ensures written { IfOk result (λ list. IsTrue (is_formed_part (pairs_part list))) }
{
    let mut list = Items::new(alloc);
    for pair in pairs {
        list.push(log_pair(*pair))?;
    }
    let _count = list.len();
    Ok(list)
}

/// Appends the entry of a row that comes into use, with the pairs that give new generators.
fn push_add(alloc: Global, log: &mut ConvLog, row: u32, pairs: &[Pair]) -> Result<(), NoMemory>
    ensures ok { OnOk result (log.new ≡ log.old ++ entry.Add row (map named pairs.now) ∷ []) }
    ensures written { OnOk result
        (IsTrue (is_formed conv_grammar (entry.Add row (map named pairs.now)))) }
    ensures err { OnErr result (log.new ≡ log.old) }
{
    let pairs = log_pairs(alloc, pairs)?;
    log.push(ConvEntry::Add { row, pairs })
}

/// Brings the row of this number into use, where the double description has no entries at the
/// places of lines. After an overflow the log is as before.
pub(crate) fn take(
    alloc: Global,
    rep: &Rep,
    places: &[bool],
    row: &[Frac],
    number: u32,
    log: &mut ConvLog,
    dd: &mut Dd<Frac>,
) -> Result<(), ConvFault>
    requires stands { StandsAt rep.now log.old dd.old }
    requires places { places.now ≡ line_places rep.now log.old }
    requires exists { number < length (text_rows rep.now) }
    requires row { row.now ≡ row_at rep.now number }
    requires unused { Contains (state rep.now log.old).used number → ⊥ }
    ensures ok { OnOk result (StandsAt rep.now log.new dd.new) }
    ensures used { OnOk result
        ((state rep.now log.new).used ≡ (state rep.now log.old).used ++ number ∷ []) }
    ensures lines { OnOk result ((state rep.now log.new).lines ≡ (state rep.now log.old).lines) }
    ensures left { IfErr result (IsConvLeft is_held rep.now) }
{
    let short = row_without(alloc, places, row)?;
    match dd.add(short.as_slice()) {
        Ok(change) => Ok(push_add(alloc, log, number, change.pairs.as_slice())?),
        Err(fault) => {
            let told = add_fault(alloc, Family::Rep, dd, short.as_slice(), fault);
            Err(ConvFault::from(told))
        }
    }
}

/// Brings all further rows into use, in this order.
pub(crate) fn take_all(
    alloc: Global,
    rep: &Rep,
    rows: &[Vector],
    places: &[bool],
    order: &[u32],
    log: &mut ConvLog,
    dd: &mut Dd<Frac>,
) -> Result<(), ConvFault>
    requires stands { StandsAt rep.now log.old dd.old }
    requires places { places.now ≡ line_places rep.now log.old }
    requires rows { rows.now ≡ text_rows rep.now }
    requires order { IsOrder (length rows.now) (state rep.now log.old).used order.now }
    ensures ok { OnOk result (StandsAt rep.now log.new dd.new) }
    ensures all { OnOk result (MeetsEnd rep.now (state rep.now log.new)) }
    ensures lines { OnOk result ((state rep.now log.new).lines ≡ (state rep.now log.old).lines) }
    ensures left { IfErr result (IsConvLeft is_held rep.now) }
{
    for number in order {
        let row = rows[*number as usize].as_slice();
        take(alloc, rep, places, row, *number, log, dd)?;
    }
    Ok(())
}
