//! The entry of one line.
ghost use Rattle.std.specs.Prelude.{codes, IfOk, IfErr};
ghost use Rattle.deriv_log.specs.LogGrammar.{log_grammar};
ghost use Rattle.deriv_log.specs.Taking.{TakesEntry, IsNoCut, IsNotSecond, ReadsLine, RefusesLine};

use crate::entry::Entry;
use crate::text::put_entry;
use src_sink::{Bytes, NoMemory};
use std::alloc::Global;
use word_lines::{
    LineEntry, LogEnd, LogKind, Stop, Words, is_word, take_kind, take_natural, take_naturals,
    take_number, take_pairs, take_sparse, take_vector,
};

fn take_duality(alloc: Global, words: &mut Words) -> Result<Entry, Stop>
    ensures { TakesEntry (codes "duality") words.old words.new result }
{
    let c = take_vector(alloc, words)?;
    let weights = take_vector(alloc, words)?;
    let picks = take_naturals(alloc, words)?;
    let inverse = take_vector(alloc, words)?;
    Ok(Entry::Duality {
        c,
        weights,
        picks,
        inverse,
    })
}

fn take_cut(alloc: Global, words: &mut Words) -> Result<Entry, Stop>
    ensures { TakesEntry (codes "cut") words.old words.new result }
{
    let w = take_vector(alloc, words)?;
    let gamma = take_number(words)?;
    let u = take_sparse(alloc, words)?;
    let v = take_sparse(alloc, words)?;
    Ok(Entry::Cut { w, gamma, u, v })
}

fn take_start(alloc: Global, words: &mut Words) -> Result<Entry, Stop>
    ensures { TakesEntry (codes "start") words.old words.new result }
{
    let cuts = take_naturals(alloc, words)?;
    let point = take_vector(alloc, words)?;
    let directions = take_vector(alloc, words)?;
    Ok(Entry::Start {
        cuts,
        point,
        directions,
    })
}

fn take_add(alloc: Global, words: &mut Words) -> Result<Entry, Stop>
    ensures { TakesEntry (codes "add") words.old words.new result }
{
    let cut = take_natural(words)?;
    let pairs = take_pairs(alloc, words)?;
    Ok(Entry::Add { cut, pairs })
}

fn take_point(alloc: Global, words: &mut Words) -> Result<Entry, Stop>
    ensures { TakesEntry (codes "point") words.old words.new result }
{
    let generator = take_natural(words)?;
    let x = take_sparse(alloc, words)?;
    let m = take_sparse(alloc, words)?;
    Ok(Entry::Point { generator, x, m })
}

fn take_ray(alloc: Global, words: &mut Words) -> Result<Entry, Stop>
    ensures { TakesEntry (codes "ray") words.old words.new result }
{
    let generator = take_natural(words)?;
    let x = take_sparse(alloc, words)?;
    let m = take_sparse(alloc, words)?;
    Ok(Entry::Ray { generator, x, m })
}

fn take_whole(alloc: Global, words: &mut Words) -> Result<Entry, Stop>
    ensures { TakesEntry (codes "whole") words.old words.new result }
{
    let x = take_sparse(alloc, words)?;
    let ray = take_sparse(alloc, words)?;
    let m = take_sparse(alloc, words)?;
    Ok(Entry::Whole { x, ray, m })
}

fn take_line(alloc: Global, words: &mut Words) -> Result<Entry, Stop>
    ensures { TakesEntry (codes "line") words.old words.new result }
{
    let d = take_vector(alloc, words)?;
    let x = take_sparse(alloc, words)?;
    let ray = take_sparse(alloc, words)?;
    let m = take_sparse(alloc, words)?;
    let back = take_sparse(alloc, words)?;
    let n = take_sparse(alloc, words)?;
    Ok(Entry::Line {
        d,
        x,
        ray,
        m,
        back,
        n,
    })
}

fn take_version(words: &mut Words) -> Result<Entry, Stop>
    ensures { TakesEntry (codes "version") words.old words.new result }
{
    Ok(Entry::Version(take_natural(words)?))
}

fn take_farkas(alloc: Global, words: &mut Words) -> Result<Entry, Stop>
    ensures { TakesEntry (codes "farkas") words.old words.new result }
{
    let u = take_sparse(alloc, words)?;
    Ok(Entry::Farkas { u })
}

fn take_facet(words: &mut Words) -> Result<Entry, Stop>
    ensures { TakesEntry (codes "facet") words.old words.new result }
{
    let cut = take_natural(words)?;
    Ok(Entry::Facet { cut })
}

fn take_end(words: &mut Words) -> Result<Entry, Stop>
    ensures { TakesEntry (codes "end") words.old words.new result }
{
    Ok(Entry::End(take_kind(words)?))
}

fn take_share(alloc: Global, words: &mut Words) -> Result<Entry, Stop>
    ensures { TakesEntry (codes "share") words.old words.new result }
{
    let v = take_sparse(alloc, words)?;
    Ok(Entry::Share { v })
}

fn take_cutof(alloc: Global, words: &mut Words) -> Result<Entry, Stop>
    ensures { TakesEntry (codes "cutof") words.old words.new result }
{
    let w = take_vector(alloc, words)?;
    let gamma = take_number(words)?;
    let share = take_natural(words)?;
    let v = take_sparse(alloc, words)?;
    Ok(Entry::CutOf { w, gamma, share, v })
}

fn take_pointof(alloc: Global, words: &mut Words) -> Result<Entry, Stop>
    ensures { TakesEntry (codes "pointof") words.old words.new result }
{
    let generator = take_natural(words)?;
    let share = take_natural(words)?;
    let m = take_sparse(alloc, words)?;
    Ok(Entry::PointOf {
        generator,
        share,
        m,
    })
}

fn take_rayof(alloc: Global, words: &mut Words) -> Result<Entry, Stop>
    ensures { TakesEntry (codes "rayof") words.old words.new result }
{
    let generator = take_natural(words)?;
    let share = take_natural(words)?;
    let m = take_sparse(alloc, words)?;
    Ok(Entry::RayOf {
        generator,
        share,
        m,
    })
}

fn take_addh(alloc: Global, words: &mut Words) -> Result<Entry, Stop>
    ensures { TakesEntry (codes "addh") words.old words.new result }
{
    let cut = take_natural(words)?;
    let pairs = take_pairs(alloc, words)?;
    let hints = take_naturals(alloc, words)?;
    Ok(Entry::AddHints { cut, pairs, hints })
}

/// The entry of this name, of which the parts stand first.
fn take_entry(alloc: Global, name: &[u8], words: &mut Words) -> Result<Entry, Stop>
    ensures { TakesEntry name.now words.old words.new result }
{
    if is_word(name, b"cut") {
        take_cut(alloc, words)
    } else if is_word(name, b"add") {
        take_add(alloc, words)
    } else if is_word(name, b"point") {
        take_point(alloc, words)
    } else if is_word(name, b"ray") {
        take_ray(alloc, words)
    } else if is_word(name, b"facet") {
        take_facet(words)
    } else if is_word(name, b"version") {
        take_version(words)
    } else if is_word(name, b"duality") {
        take_duality(alloc, words)
    } else if is_word(name, b"start") {
        take_start(alloc, words)
    } else {
        take_second(alloc, name, words)
    }
}

/// The same of the entries of version 2.
fn take_second(alloc: Global, name: &[u8], words: &mut Words) -> Result<Entry, Stop>
    requires { IsNoCut name.now }
    ensures { TakesEntry name.now words.old words.new result }
{
    if is_word(name, b"addh") {
        take_addh(alloc, words)
    } else if is_word(name, b"cutof") {
        take_cutof(alloc, words)
    } else if is_word(name, b"pointof") {
        take_pointof(alloc, words)
    } else if is_word(name, b"rayof") {
        take_rayof(alloc, words)
    } else if is_word(name, b"share") {
        take_share(alloc, words)
    } else {
        take_answer(alloc, name, words)
    }
}

/// The same of the entries that tell an answer.
fn take_answer(alloc: Global, name: &[u8], words: &mut Words) -> Result<Entry, Stop>
    requires cut { IsNoCut name.now }
    requires second { IsNotSecond name.now }
    ensures { TakesEntry name.now words.old words.new result }
{
    if is_word(name, b"end") {
        take_end(words)
    } else if is_word(name, b"farkas") {
        take_farkas(alloc, words)
    } else if is_word(name, b"whole") {
        take_whole(alloc, words)
    } else if is_word(name, b"line") {
        take_line(alloc, words)
    } else {
        Err(Stop::Fault(LogKind::BadLine))
    }
}

impl LineEntry for Entry {
    ghost grammar = { log_grammar };

    fn take(alloc: Global, name: &[u8], words: &mut Words) -> Result<Entry, Stop> {
        take_entry(alloc, name, words)
    }

    fn put(&self, into: &mut Bytes) -> Result<(), NoMemory> {
        put_entry(self, into)
    }

    fn is_end(&self) -> bool {
        matches!(self, Entry::End(_))
    }
}

/// The entry of a line of a log, given the line's number, its text without the line feed, whether
/// that line feed stood, and whether an `end` line stands before it. A fault names this number and
/// the first test that the line fails.
pub fn read_line(
    alloc: Global,
    number: u32,
    text: &[u8],
    whole: bool,
    ended: bool,
) -> Result<Entry, LogEnd>
    ensures ok { IfOk result (ReadsLine ended whole text.now) }
    ensures refused { IfErr result (RefusesLine number ended whole text.now) }
{
    word_lines::read_line(alloc, number, text, whole, ended)
}
