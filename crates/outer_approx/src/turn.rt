//! A cut that comes into use: its entries, and the step of the double description.
ghost use Rattle.std.specs.Prelude.{◌≡◌, IfOk, IsTrue, map, ◌++◌, ◌∷◌, [], ℕ, false, IfErr, OnErr, OnOk};
ghost use Rattle.deriv_log.specs.Formed.{is_formed};
ghost use Rattle.word_lines.specs.Parts.{is_formed_pair, is_formed_part};
ghost use Rattle.word_lines.specs.Parts.{pairs as pairs_part};
ghost use Rattle.overflows.specs.Pairs.{named};
ghost use Rattle.deriv_log.specs.declared.entry.Entry.TheVariants as entry_of;
ghost use Rattle.log_rules.specs.Live.{lines, preimages};
ghost use Rattle.outer_approx.specs.Cuts.{IsCutFor, said_by};
ghost use Rattle.outer_approx.specs.Lines.{line_places};
ghost use Rattle.outer_approx.specs.Standing.{IsOpenTrail, IsOuter, StandForSame, cuts_of, rows_of_trail};
ghost use Rattle.outer_approx.specs.Task.{Task, setting};
ghost use Rattle.overflows.specs.Faults.{OnLicence, Overflows};
ghost use Rattle.polyhedra.specs.Exactness.{row_of};

use crate::log::push_cut;
use crate::places::cut_row;
use deriv_log::{Entries, Entry, Family, LogPair};
use double_descr::{Dd, DdFault, Pair};
use exact_field::Field;
use lp_form::Cut;
use overflows::{SolveFault, add_fault};
use src_sink::{Items, NoMemory};
use std::alloc::Global;

/// A pair as an entry names it.
fn log_pair(pair: Pair) -> LogPair
    ensures same { result ≡ named pair }
    ensures written { IsTrue (is_formed_pair result) }
{
    LogPair {
        plus: pair.plus,
        minus: pair.minus,
    }
}

/// Pairs as an entry names them.
fn log_pairs(alloc: Global, pairs: &[Pair]) -> Result<Items<LogPair>, NoMemory>
    ensures same { IfOk result (λ list. list ≡ map named pairs.now) }
    ensures written { IfOk result (λ list. IsTrue (is_formed_part (pairs_part list))) }
{
    let mut list = Items::new(alloc);
    for pair in pairs {
        list.push(log_pair(*pair))?;
    }
    let _count = list.len();
    Ok(list)
}

/// Appends the entry of a cut that comes into use, with the pairs that give new generators.
fn push_add(alloc: Global, trail: &mut Entries, cut: u32, pairs: &[Pair]) -> Result<(), NoMemory>
    ensures ok { OnOk result
        (trail.new ≡ trail.old ++ entry_of.Add cut (map named pairs.now) ∷ []) }
    ensures written { OnOk result (IsTrue (is_formed (entry_of.Add cut (map named pairs.now)))) }
    ensures err { OnErr result (trail.new ≡ trail.old) }
{
    let pairs = log_pairs(alloc, pairs)?;
    trail.push(Entry::Add { cut, pairs })
}

/// Brings one more cut into use, where the double description has no entries at the places of
/// lines. After an overflow it stands after the others and is not in use. After want of memory the
/// double description may have its row where the trail does not have it in use.
pub fn take<F: Field>(
    alloc: Global,
    places: &[bool],
    trail: &mut Entries,
    dd: &mut Dd<F>,
    cut: &Cut<F>,
) -> Result<(), SolveFault>
    ghost task: { Task }
    requires outer { IsOuter task trail.old dd.old }
    requires places { places.now ≡ line_places task trail.old }
    requires cut { IsCutFor F.value task cut.now }
    ensures ok { OnOk result (IsOuter task trail.new dd.new) }
    ensures rows { OnOk result (rows_of_trail task trail.new
        ≡ rows_of_trail task trail.old ++ row_of (said_by F.value cut.now) ∷ []) }
    ensures cuts { OnOk result
        (cuts_of task trail.new ≡ cuts_of task trail.old ++ said_by F.value cut.now ∷ []) }
    ensures lines { lines trail.new ≡ lines trail.old }
    ensures preimages { OnOk result ((k : ℕ) → preimages trail.new k ≡ preimages trail.old k) }
    ensures trail { IsOpenTrail task trail.new }
    ensures same { IfErr result
        (λ fault. OnLicence fault (λ licence. StandForSame task trail.new dd.new)) }
    ensures left { IfErr result (Overflows F.holds (setting task trail.new) []) }
{
    let row = cut_row(alloc, places, cut)?;
    let number = dd.row_count();
    push_cut(alloc, trail, cut)?;
    match dd.add(row.as_slice()) {
        Ok(change) => Ok(push_add(alloc, trail, number, change.pairs.as_slice())?),
        Err(fault) => Err(add_fault(alloc, Family::Image, dd, row.as_slice(), fault)),
    }
}

/// Brings one more cut into use, if its addition does not overflow, and answers whether it did:
/// else all is as before.
pub fn try_take<F: Field>(
    alloc: Global,
    places: &[bool],
    trail: &mut Entries,
    dd: &mut Dd<F>,
    cut: &Cut<F>,
) -> Result<bool, NoMemory>
    ghost task: { Task }
    requires outer { IsOuter task trail.old dd.old }
    requires places { places.now ≡ line_places task trail.old }
    requires cut { IsCutFor F.value task cut.now }
    ensures ok { OnOk result (IsOuter task trail.new dd.new) }
    ensures rows { IfOk result (λ taken. IsTrue taken
        → rows_of_trail task trail.new
        ≡ rows_of_trail task trail.old ++ row_of (said_by F.value cut.now) ∷ []) }
    ensures cuts { IfOk result (λ taken. IsTrue taken
        → cuts_of task trail.new ≡ cuts_of task trail.old ++ said_by F.value cut.now ∷ []) }
    ensures lines { lines trail.new ≡ lines trail.old }
    ensures preimages { OnOk result ((k : ℕ) → preimages trail.new k ≡ preimages trail.old k) }
    ensures as_before { IfOk result
        (λ taken. taken ≡ false → (trail.new ≡ trail.old) × (dd.new ≡ dd.old)) }
    ensures trail { IsOpenTrail task trail.new }
{
    let row = cut_row(alloc, places, cut)?;
    let cut_number = dd.row_count();
    match dd.add(row.as_slice()) {
        Ok(change) => {
            push_cut(alloc, trail, cut)?;
            push_add(alloc, trail, cut_number, change.pairs.as_slice())?;
            Ok(true)
        }
        Err(DdFault::NoMemory) => Err(NoMemory),
        Err(_) => Ok(false),
    }
}
