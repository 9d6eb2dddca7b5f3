//! That what a licence shows is held: each number is read once, and so is in the range of its type.
ghost use Rattle.std.specs.Prelude.{◌≡◌, All, IsTrue};
ghost use Rattle.frac128.specs.Held.{is_held};
ghost use Rattle.word_lines.specs.Parts.{is_formed_pair, is_formed_spot, is_short, naturals, pairs, sparse, vector};
ghost use Rattle.commands.specs.Told.{CanBeTold, CanTell, IsHeldEntry, is_held_part};

use crate::status::Status;
use deriv_log::{Entry, Licence};
use exact_field::Field;
use frac128::{Frac, Sparse, Spot, Vector};
use src_sink::Items;
use word_lines::LogPair;

fn read_natural(number: u32)
    ensures { IsTrue (is_short number) }
{
    let _number = number;
}

fn read_number(number: Frac)
    ensures { IsTrue (is_held number) }
{
    let _num = number.num();
}

fn read_spot(spot: Spot)
    ensures { IsTrue (is_formed_spot spot) }
{
    read_natural(spot.at);
    read_number(spot.value);
}

fn read_pair(pair: LogPair)
    ensures { IsTrue (is_formed_pair pair) }
{
    read_natural(pair.plus);
    read_natural(pair.minus);
}

fn read_list_of_naturals(list: &[u32])
    ensures { All (λ n. IsTrue (is_short n)) list.now }
{
    for number in list {
        read_natural(*number);
    }
}

fn read_naturals(list: &Items<u32>)
    ensures { IsTrue (is_held_part (naturals list.now)) }
{
    read_list_of_naturals(list.as_slice())
}

fn read_list_of_numbers(list: &[Frac])
    ensures { All (λ q. IsTrue (is_held q)) list.now }
{
    for number in list {
        read_number(*number);
    }
}

fn read_vector(list: &Vector)
    ensures { IsTrue (is_held_part (vector list.now)) }
{
    read_list_of_numbers(list.as_slice())
}

fn read_list_of_spots(list: &[Spot])
    ensures { All (λ s. IsTrue (is_formed_spot s)) list.now }
{
    for spot in list {
        read_spot(*spot);
    }
}

fn read_sparse(list: &Sparse)
    ensures { IsTrue (is_held_part (sparse list.now)) }
{
    read_list_of_spots(list.as_slice())
}

fn read_list_of_pairs(list: &[LogPair])
    ensures { All (λ p. IsTrue (is_formed_pair p)) list.now }
{
    for pair in list {
        read_pair(*pair);
    }
}

fn read_pairs(list: &Items<LogPair>)
    ensures { IsTrue (is_held_part (pairs list.now)) }
{
    read_list_of_pairs(list.as_slice())
}

/// The numbers of an entry are held.
fn read_entry(entry: &Entry)
    ensures { IsHeldEntry entry.now }
{
    match entry {
        Entry::Version(number) => read_natural(*number),
        Entry::Duality {
            c,
            weights,
            picks,
            inverse,
        } => {
            read_vector(c);
            read_vector(weights);
            read_naturals(picks);
            read_vector(inverse);
        }
        Entry::Cut { w, gamma, u, v } => {
            read_vector(w);
            read_number(*gamma);
            read_sparse(u);
            read_sparse(v);
        }
        Entry::Start {
            cuts,
            point,
            directions,
        } => {
            read_naturals(cuts);
            read_vector(point);
            read_vector(directions);
        }
        Entry::Add { cut, pairs } => {
            read_natural(*cut);
            read_pairs(pairs);
        }
        Entry::Point { generator, x, m } => {
            read_natural(*generator);
            read_sparse(x);
            read_sparse(m);
        }
        Entry::Ray { generator, x, m } => {
            read_natural(*generator);
            read_sparse(x);
            read_sparse(m);
        }
        Entry::Farkas { u } => read_sparse(u),
        Entry::Whole { x, ray, m } => {
            read_sparse(x);
            read_sparse(ray);
            read_sparse(m);
        }
        Entry::Line {
            d,
            x,
            ray,
            m,
            back,
            n,
        } => {
            read_vector(d);
            read_sparse(x);
            read_sparse(ray);
            read_sparse(m);
            read_sparse(back);
            read_sparse(n);
        }
        Entry::Facet { cut } => read_natural(*cut),
        Entry::End(_kind) => (),
        Entry::Share { v } => read_sparse(v),
        Entry::CutOf { w, gamma, share, v } => {
            read_vector(w);
            read_number(*gamma);
            read_natural(*share);
            read_sparse(v);
        }
        Entry::PointOf {
            generator,
            share,
            m,
        } => {
            read_natural(*generator);
            read_natural(*share);
            read_sparse(m);
        }
        Entry::RayOf {
            generator,
            share,
            m,
        } => {
            read_natural(*generator);
            read_natural(*share);
            read_sparse(m);
        }
        Entry::AddHints { cut, pairs, hints } => {
            read_natural(*cut);
            read_pairs(pairs);
            read_naturals(hints);
        }
    }
}

fn read_entries(entries: &[Entry])
    ensures { All IsHeldEntry entries.now }
{
    for entry in entries {
        read_entry(entry);
    }
}

/// The operands of a licence and the numbers of its trail are held.
fn read_licence(licence: &Licence)
    ensures { CanBeTold licence.now }
{
    read_number(licence.left.a);
    read_number(licence.left.b);
    read_entries(licence.trail.as_slice());
}

/// What the licence of a status shows is held, where it has one.
pub(crate) fn read_status(status: &Status)
    ensures { CanTell status.now }
{
    if let Status::Left(licence) = status {
        read_licence(licence);
    }
}
