//! The check of the log of a conversion: entry by entry, up to the first test or step that fails.
ghost use Rattle.std.specs.Prelude.{◌≡◌, ◌<◌, ◌+◌, ◌++◌, ◌∷◌, [], ℕ, List, IfOk, IfErr, OnOk, None, length, slice_index_or, take};
ghost use Rattle.frac128.specs.Held.{is_held};
ghost use Rattle.log_rules.specs.Runs.{Stops};
ghost use Rattle.rep_conv.specs.Alone.{IsAlone};
ghost use Rattle.rep_conv.specs.Checked.{IsRefusal, IsTaken};
ghost use Rattle.rep_conv.specs.Converted.{Gives, IsOther};
ghost use Rattle.rep_conv.specs.Events.{conv_failure, events};
ghost use Rattle.rep_conv.specs.Progress.{StandsAfter};
ghost use Rattle.rep_text.specs.declared.conv.ConvEntry.{ConvEntry};
ghost use Rattle.rep_text.specs.declared.conv.ConvEntry.TheVariants.{End};
ghost use Rattle.rep_conv.specs.declared.progress.Standing.{Standing};
ghost use Rattle.rep_text.specs.declared.rep.Rep.{Rep};

use crate::giving::other_rep_after;
use crate::progress::Standing;
use exact_field::Left;
use frac128::Frac;
use log_rules::{Rule, Stop};
use rep_text::{ConvEntry, ConvLog, Rep};
use src_sink::NoMemory;
use std::alloc::Global;

/// Why the log of a conversion is refused.
#[derive(Clone, Copy, Debug)]
pub enum ConvRefusal {
    /// The first rule that fails, and the number of its entry, from 1.
    Wrong {
        entry: usize,
        rule: Rule,
    },
    /// The first step whose exact result is not held, by its number in its entry, both from 1, with
    /// its operands.
    Left {
        entry: usize,
        step: u64,
        left: Left<Frac>,
    },
    NoMemory,
}

impl From<NoMemory> for ConvRefusal {
    ghost use Rattle.std.specs.Prelude.{◌≡◌};
    ghost use Rattle.rep_conv.specs.declared.check.ConvRefusal.TheVariants as refusal;

    ghost from_gives = { λ _ r. r ≡ refusal.NoMemory };

    fn from(_e: NoMemory) -> ConvRefusal {
        ConvRefusal::NoMemory
    }
}

/// The refusal at the entry of this number.
fn refusal(entry: usize, stop: Stop) -> ConvRefusal
    ensures { (rep : Rep) (log : List ConvEntry) (i : ℕ) (standing : Standing) (e : ConvEntry)
        → IsTaken rep log i standing → i < length log → e ≡ slice_index_or log i e
        → entry ≡ i + 1 → Stops is_held (events rep (take i log) e) 0 stop
        → IsRefusal rep log result }
{
    match stop {
        Stop::Wrong(rule) => ConvRefusal::Wrong { entry, rule },
        Stop::Left { step, left } => ConvRefusal::Left { entry, step, left },
        Stop::NoMemory => ConvRefusal::NoMemory,
    }
}

/// Goes through the entry at this place.
fn take_at(
    standing: &mut Standing,
    alloc: Global,
    rep: &Rep,
    log: &[ConvEntry],
    i: usize,
) -> Result<(), ConvRefusal>
    requires inside { i < length log.now }
    requires taken { IsTaken rep.now log.now i standing.old }
    ensures ok { OnOk result (IsTaken rep.now log.now (i + 1) standing.new) }
    ensures err { IfErr result (IsRefusal rep.now log.now) }
{
    match standing.take(alloc, rep, i, &log[i]) {
        Ok(()) => Ok(()),
        Err(stop) => Err(refusal(i + 1, stop)),
    }
}

/// Goes through all entries of a log: the tests and steps of each in their order. What stands after
/// them is right where none fails; else it is told which is the first. The cost is that of the
/// entries one by one.
pub fn check_entries(alloc: Global, rep: &Rep, log: &[ConvEntry]) -> Result<Standing, ConvRefusal>
    ensures ok { IfOk result (λ standing. (conv_failure is_held rep.now log.now ≡ None)
        × StandsAfter rep.now log.now standing) }
    ensures err { IfErr result (IsRefusal rep.now log.now) }
{
    let mut standing = Standing::new(alloc, rep)?;
    for i in 0..log.len() {
        take_at(&mut standing, alloc, rep, log, i)?;
    }
    Ok(standing)
}

/// Checks the log of a conversion, and gives the other representation. Where the log ends with its
/// `end`, this is the other representation of the same set, no row of it can be left out, and its
/// rows depend on the set alone.
pub fn check_conv(alloc: Global, rep: &Rep, log: &ConvLog) -> Result<Rep, ConvRefusal>
    ensures ok { IfOk result (λ found. (conv_failure is_held rep.now log.now ≡ None)
        × Gives rep.now log.now found) }
    ensures right { IfOk result (λ found. (before : List ConvEntry)
        → log.now ≡ before ++ End ∷ [] → IsOther rep.now found) }
    ensures one { IfOk result (λ found. (before : List ConvEntry)
        → log.now ≡ before ++ End ∷ [] → IsAlone rep.now found) }
    ensures err { IfErr result (IsRefusal rep.now log.now) }
{
    let standing = check_entries(alloc, rep, log.as_slice())?;
    let found = other_rep_after(alloc, rep, &standing)?;
    Ok(found)
}
