//! Logs that name each of their cuts as a facet.
ghost use Rattle.std.specs.Prelude.{◌≡◌, ◌≤◌, ℕ, IsTrue, Contains, length};
ghost use Rattle.benson_dual.specs.Logs.{AreAllNamed};
ghost use Rattle.log_rules.specs.Live.{named, state};
ghost use Rattle.solver.specs.Named.{is_cut, is_facet};

use deriv_log::Entry;

/// Whether an entry is a cut.
fn states_a_cut(entry: &Entry) -> bool
    ensures { result ≡ is_cut entry.now }
{
    matches!(entry, Entry::Cut { .. })
}

/// Whether an entry names the cut of this number as a facet.
fn names(entry: &Entry, number: usize) -> bool
    ensures { result ≡ is_facet number entry.now }
{
    match entry {
        Entry::Facet { cut } => *cut as usize == number,
        _ => false,
    }
}

/// How many cuts a log has.
fn cut_count(entries: &[Entry]) -> usize
    ensures { (q : ℕ) → length (state q entries.now).cuts ≡ result }
{
    let mut count = 0;
    for entry in entries {
        if states_a_cut(entry) {
            count += 1;
        }
    }
    count
}

/// How many cuts, from the first on, a log names as facets in their order.
fn named_count(entries: &[Entry]) -> usize
    ensures { (k : ℕ) → 1 ≤ k → k ≤ result → Contains (named entries.now) k }
{
    let mut count = 0;
    for entry in entries {
        if names(entry, count + 1) {
            count += 1;
        }
    }
    count
}

/// Whether a log names each of its cuts as a facet, in their order, as `primal` names them.
pub(crate) fn names_all_cuts(entries: &[Entry]) -> bool
    ensures { IsTrue result → (q : ℕ) → AreAllNamed q entries.now }
{
    named_count(entries) == cut_count(entries)
}
