//! Lists of places, one after the other.
use exact_field::Field;
use lp_form::At;
use std::alloc::Global;
use whole_programs::{Stop, at, put};

/// The place of a spot, from 0.
pub fn place_of<F: Field>(spot: &At<F>) -> usize {
    (spot.at as usize).saturating_sub(1)
}

/// The sum of a first number and a place after it, as a number from 1.
pub fn number_of(base: usize, i: usize) -> Result<u32, Stop> {
    let k = base.saturating_add(i);
    if k < 4_294_967_294 {
        Ok(k as u32 + 1)
    } else {
        Err(Stop::Declined)
    }
}

/// So many items of a list, from a first one on, or a decline.
pub fn part<T>(list: &[T], first: usize, count: usize) -> Result<&[T], Stop> {
    if first <= list.len() && count <= list.len() - first {
        Ok(&list[first..first + count])
    } else {
        Err(Stop::Declined)
    }
}

/// Lists of places, from 0.
#[derive(Debug, Drop)]
pub struct Lists {
    members: Vec<usize>,
    /// For each list the place after its last member.
    ends: Vec<usize>,
}

impl Lists {
    pub fn new(alloc: Global) -> Lists {
        Lists {
            members: Vec::new(alloc),
            ends: Vec::new(alloc),
        }
    }

    /// How many lists there are.
    pub fn count(&self) -> usize {
        self.ends.len()
    }

    /// Appends a member to the list that is being written.
    pub fn push(&mut self, member: usize) -> Result<(), Stop> {
        self.members.push(member)?;
        Ok(())
    }

    /// Ends the list that is being written.
    pub fn end(&mut self) -> Result<(), Stop> {
        let end = self.members.len();
        self.ends.push(end)?;
        Ok(())
    }

    /// List `k`, from 0.
    pub fn list(&self, k: usize) -> Result<&[usize], Stop> {
        let start = start_of(&self.ends, k)?;
        let count = at(&self.ends, k)?.saturating_sub(start);
        part(&self.members, start, count)
    }

    /// For each of the places below `n` the lists that have it.
    pub fn transpose(&self, alloc: Global, n: usize) -> Result<Lists, Stop> {
        let mut next = starts(alloc, &self.members, n)?;
        let mut ends = Vec::new(alloc);
        for end in next.iter().skip(1) {
            ends.push(*end)?;
        }
        let mut members = vec![in alloc; 0; self.members.len()]?;
        for k in 0..self.count() {
            for member in self.list(k)? {
                let place = at(&next, *member)?;
                put(&mut members, place, k)?;
                put(&mut next, *member, place.saturating_add(1))?;
            }
        }
        Ok(Lists { members, ends })
    }
}

/// The place of the first member of list `k`, from 0.
fn start_of(ends: &[usize], k: usize) -> Result<usize, Stop> {
    if k == 0 { Ok(0) } else { at(ends, k - 1) }
}

/// Where the list of each place below `n` begins, and where the last one ends.
fn starts(alloc: Global, members: &[usize], n: usize) -> Result<Vec<usize>, Stop> {
    let mut counts = vec![in alloc; 0; n]?;
    for member in members {
        let count: usize = at(&counts, *member)?;
        put(&mut counts, *member, count.saturating_add(1))?;
    }
    let mut starts = Vec::new(alloc);
    let mut sum = 0usize;
    for count in &counts {
        starts.push(sum)?;
        sum = sum.saturating_add(*count);
    }
    starts.push(sum)?;
    Ok(starts)
}
