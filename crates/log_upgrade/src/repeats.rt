//! Which vectors stand in several entries of a log, and the numbers of those that are shared.
ghost use Rattle.std.specs.Prelude.{◌≡◌, ◌<◌, ◌++◌, ◌∷◌, [], List, IfOk, OnOk, Some};
ghost use Rattle.std.specs.Option.{option_copied};
ghost use Rattle.frac128.specs.declared.vectors.Spot.{Spot};
ghost use Rattle.deriv_log.specs.declared.entry.Entry.{Entry};
ghost use Rattle.log_versions.specs.Upgrade.{body};
ghost use Rattle.log_upgrade.specs.Repeats.{AreStandings, place_of, with_place};

use crate::vectors::VectorKey;
use deriv_log::Entry;
use frac128::Spot;
use src_sink::NoMemory;
use std::alloc::Global;
use std::collections::BTreeMap;

/// The vector of an entry that may be shared.
pub(crate) fn vector_of(entry: &Entry) -> Option<&[Spot]>
    ensures { option_copied result ≡ body entry.now }
{
    match entry {
        Entry::Cut { u, .. } => Some(u.as_slice()),
        Entry::Point { x, .. } => Some(x.as_slice()),
        Entry::Ray { x, .. } => Some(x.as_slice()),
        _ => None,
    }
}

/// What is known of a vector that stands in an entry.
#[derive(Clone, Copy)]
enum Standing {
    /// It stands in one entry so far.
    Once,
    /// It stands in several, and is not shared yet.
    Several,
    /// It is shared, and this is its number.
    Shared(u32),
}

/// How an entry of the upgrade has its vector.
#[derive(Clone, Copy)]
pub(crate) enum Place {
    /// As its own, in itself.
    Own,
    /// By this number, under which it is shared right before.
    First(u32),
    /// By this number, under which it was shared before.
    Again(u32),
}

/// The vectors of a log. Each call costs the logarithm of their number in comparisons of vectors.
#[derive(Drop)]
pub(crate) struct Repeats<'a> {
    standings: BTreeMap<VectorKey<'a>, Standing>,
    shared: u32,
}

impl<'a> Repeats<'a> {
    /// The vectors of these entries, none of which is shared yet.
    pub(crate) fn of(alloc: Global, entries: &'a [Entry]) -> Result<Repeats<'a>, NoMemory>
        ensures { IfOk result (AreStandings entries.now []) }
    {
        let mut repeats = Repeats {
            standings: BTreeMap::new(alloc),
            shared: 0,
        };
        for entry in entries {
            if let Some(vector) = vector_of(entry) {
                repeats.meet(vector)?;
            }
        }
        Ok(repeats)
    }

    /// With the vector of one entry more.
    fn meet(&mut self, vector: &'a [Spot]) -> Result<(), NoMemory>
        ensures { (entries : List Entry) (e : Entry) → body e ≡ Some vector.now
            → AreStandings entries [] self.old
            → OnOk result (AreStandings (entries ++ e ∷ []) [] self.new) }
    {
        if vector.is_empty() {
            return Ok(());
        }
        let key = VectorKey { spots: vector };
        let standing = if self.standings.contains_key(&key) {
            Standing::Several
        } else {
            Standing::Once
        };
        self.standings.insert(key, standing)?;
        Ok(())
    }

    /// How the next entry has its vector, which is shared where it stands in several entries.
    pub(crate) fn take(&mut self, vector: &'a [Spot]) -> Result<Place, NoMemory>
        requires { self.old.shared < 4294967295 }
        ensures place { (all : List Entry) (vectors : List (List Spot))
            → AreStandings all vectors self.old
            → IfOk result (λ place. place ≡ place_of all vectors vector.now) }
        ensures standings { (all : List Entry) (vectors : List (List Spot))
            → AreStandings all vectors self.old
            → OnOk result (AreStandings all (with_place all vectors vector.now) self.new) }
    {
        let key = VectorKey { spots: vector };
        match self.standings.get(&key).copied() {
            None | Some(Standing::Once) => Ok(Place::Own),
            Some(Standing::Shared(number)) => Ok(Place::Again(number)),
            Some(Standing::Several) => {
                let number = self.shared + 1;
                self.standings.insert(key, Standing::Shared(number))?;
                self.shared = number;
                Ok(Place::First(number))
            }
        }
    }
}
