//! A double description.
ghost use Rattle.std.specs.Prelude.{◌≡◌, ◌<◌, ◌≤◌, List, [], ◌∷◌, ◌++◌, All, Contains, IfErr, IfOk, OnErr, OnOk, length, slice_index_or};
ghost use Rattle.exact_field.specs.Rational.{ℚ};
ghost use Rattle.polyhedra.specs.Cone.{HasFullRank};
ghost use Rattle.polyhedra.specs.LiveList.{numbers, step, tight_set};
ghost use Rattle.polyhedra.specs.LiveSteps.{IsLive};
ghost use Rattle.lin_rows.specs.Read.{numbers as table};
ghost use Rattle.double_descr.specs.Starting.{IsStart, IsStartFault};
ghost use Rattle.double_descr.specs.Adding.{AreHeld, IsAddFault, IsChange, add_blocks};
ghost use Rattle.double_descr.specs.Steps.{values};

use crate::fault::{Change, DdFault};
use crate::generator::{Generator, place_of};
use crate::moves::advance;
use crate::next::{Next, next_list};
use crate::parts::push_numbers;
use crate::starting::{copy_rows, norm_all};
use exact_field::Field;
use guessed_rows::corners_in_two_ways;
use incid_sets::Marks;
use lin_rows::Rows;
use src_sink::{Items, MOST_ITEMS};
use std::alloc::Global;
use std::marker::Model;

/// The rows of a pointed cone in their order, numbered from 0, and its generators under their
/// numbers, from 1: a double description pair (Fukuda and Prodon), which grows by one row at a
/// time. Each generator is normed: divided by the magnitude of its last entry or, if that is 0, of
/// its first entry that is not.
#[derive(Drop)]
pub struct Dd<F: Field> {
    width: u32,
    rows: Items<Items<F>>,
    numbers: Items<u32>,
    generators: Vec<Generator<F>>,
    next: u32,
    alloc: Global,
}

impl<F: Field> Model for Dd<F> {
    ghost use Rattle.double_descr.specs.State.{State, state_code};

    ghost Value = { State };

    ghost coded = { state_code };

    ghost use Rattle.std.specs.Prelude.{map};
    ghost use Rattle.double_descr.specs.State.{live_of, IsKept};
    ghost use Rattle.double_descr.specs.Steps.{values};

    ghost view = { λ d. record {
      width = d.width;
      rows = map (values F.value) d.rows;
      list = record { live = live_of F.value d.generators.items; next = d.next };
    } };

    ghost invariant = { λ d.
        IsKept F.value d.width d.rows d.numbers d.generators.items d.next };
}

impl<F: Field> Dd<F> {
    /// The double description of as many rows as they have entries, which are independent.
    /// Generator `j` is positive at row `j - 1` and 0 at the others. The cost is that of one
    /// elimination of the rows with the unit matrix beside them.
    pub fn start(alloc: Global, rows: &Rows<F>) -> Result<Dd<F>, DdFault<F>>
        requires square { length rows.now.list ≡ rows.now.width }
        requires rank { HasFullRank rows.now.width (table F.value rows.now.list) }
        ensures ok { IfOk result (λ dd. IsStart rows.now.width (table F.value rows.now.list) dd) }
        ensures left { IfErr result (λ fault. IsStartFault F.value F.holds rows.now.width
            (table F.value rows.now.list) fault) }
    {
        let vectors = corners_in_two_ways(alloc, rows)?;
        let generators = norm_all(alloc, &vectors)?;
        let mut numbers = Items::new(alloc);
        push_numbers(&mut numbers, generators.as_slice())?;
        let lines = copy_rows(alloc, rows)?;
        let next = generators.len() as u32 + 1;
        Ok(Dd {
            width: rows.width(),
            rows: lines,
            numbers,
            generators: generators.into_vec(),
            next,
            alloc,
        })
    }

    /// The numbers of the live generators, rising.
    pub fn live(&self) -> &[u32]
        ensures live { result.now ≡ numbers self.now.list.live }
        ensures described { IsLive self.now.width self.now.rows self.now.list }
        ensures bound { length result.now ≤ MOST_ITEMS }
    {
        self.numbers.as_slice()
    }

    /// How many rows there are.
    pub fn row_count(&self) -> u32
        ensures { result ≡ length self.now.rows }
    {
        self.rows.len() as u32
    }

    /// Row `k`, counted from 0.
    pub fn row(&self, k: u32) -> &[F]
        requires { k < length self.now.rows }
        ensures { values F.value result.now ≡ slice_index_or self.now.rows k [] }
    {
        self.rows.as_slice()[k as usize].as_slice()
    }

    /// The entries of the live generator `g`, which is found by a binary search.
    pub fn generator(&self, g: u32) -> &[F]
        requires { Contains (numbers self.now.list.live) g }
        ensures listed { Contains self.now.list.live
            (record { number = g; vector = values F.value result.now }) }
        ensures only { (v : List ℚ)
            → Contains self.now.list.live (record { number = g; vector = v })
            → values F.value result.now ≡ v }
    {
        let place = place_of(self.numbers.as_slice(), g);
        self.generators.as_slice()[place].vector.as_slice()
    }

    /// The rows that are 0 at the live generator `g`, which is found by a binary search.
    pub fn tight(&self, g: u32) -> &Marks
        requires { Contains (numbers self.now.list.live) g }
        ensures { (v : List ℚ) → Contains self.now.list.live (record { number = g; vector = v })
            → result.now ≡ tight_set self.now.rows v }
    {
        let place = place_of(self.numbers.as_slice(), g);
        &self.generators.as_slice()[place].tight
    }

    /// Adds a row of this width, as its next one. The generators at which it is negative are
    /// dropped, and each opposite pair that no third live generator covers gives a new one, where
    /// the row is 0 between the two. After a refusal all is as before: what takes memory is made
    /// aside first, and then the generators that stay are moved. The cost is at the worst that of
    /// the opposite pairs times the live generators times the words of a set of rows.
    pub fn add(&mut self, row: &[F]) -> Result<Change, DdFault<F>>
        requires { length row.now ≡ self.old.width }
        ensures ok { OnOk result (self.new
            ≡ record {
              width = self.old.width;
              rows = self.old.rows ++ values F.value row.now ∷ [];
              list = step self.old.rows self.old.list (values F.value row.now);
            }) }
        ensures change { IfOk result
            (λ change. IsChange self.old.rows self.old.list (values F.value row.now) change) }
        ensures held { OnOk result (All (AreHeld F.holds)
            (add_blocks self.old.rows self.old.list.live (values F.value row.now))) }
        ensures left { IfErr result (λ fault. IsAddFault F.value F.holds
            (add_blocks self.old.rows self.old.list.live (values F.value row.now)) fault) }
        ensures err { OnErr result (self.new ≡ self.old) }
    {
        let made = next_list(
            self.alloc,
            &self.rows,
            row,
            self.generators.as_slice(),
            self.next,
        )?;
        let mut line = Items::new(self.alloc);
        line.append(row)?;
        self.generators.reserve(made.generators.len())?;
        self.rows.push(line)?;
        let Next {
            values,
            sets,
            generators,
            numbers,
            next,
            change,
        } = made;
        advance(&mut self.generators, values.as_slice(), sets, generators);
        self.numbers = numbers;
        self.next = next;
        Ok(change)
    }
}
