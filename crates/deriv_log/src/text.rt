//! The text of logs.
ghost use Rattle.std.specs.Prelude.{◌≡◌, ◌++◌, IfOk, OnOk};
ghost use Rattle.src_sink.specs.Texts.{line_text, words_text};
ghost use Rattle.deriv_log.specs.LogText.{entry_words, log_text};

use crate::entry::{Entries, Entry};
use frac128::{Frac, Spot};
use src_sink::{Bytes, NoMemory};
use std::alloc::Global;
use word_lines::{
    EndKind, LogPair, print_entries, put_kind, put_natural, put_naturals, put_number, put_pairs,
    put_sparse, put_vector,
};

fn put_version_entry(number: u32, into: &mut Bytes) -> Result<(), NoMemory>
    ensures { OnOk result (into.new ≡ into.old ++ words_text (entry_words (Entry.Version number))) }
{
    into.append(b"version")?;
    put_natural(number, into)?;
    Ok(())
}

fn put_duality_entry(
    c: &[Frac],
    weights: &[Frac],
    picks: &[u32],
    inverse: &[Frac],
    into: &mut Bytes,
) -> Result<(), NoMemory>
    ensures { OnOk result (into.new ≡ into.old
        ++ words_text (entry_words (Entry.Duality c.now weights.now picks.now inverse.now))) }
{
    into.append(b"duality")?;
    put_vector(c, into)?;
    put_vector(weights, into)?;
    put_naturals(picks, into)?;
    put_vector(inverse, into)?;
    Ok(())
}

fn put_cut_entry(
    w: &[Frac],
    gamma: Frac,
    u: &[Spot],
    v: &[Spot],
    into: &mut Bytes,
) -> Result<(), NoMemory>
    ensures { OnOk result (into.new ≡ into.old
        ++ words_text (entry_words (Entry.Cut w.now gamma u.now v.now))) }
{
    into.append(b"cut")?;
    put_vector(w, into)?;
    put_number(gamma, into)?;
    put_sparse(u, into)?;
    put_sparse(v, into)?;
    Ok(())
}

fn put_start_entry(
    cuts: &[u32],
    point: &[Frac],
    directions: &[Frac],
    into: &mut Bytes,
) -> Result<(), NoMemory>
    ensures { OnOk result (into.new ≡ into.old
        ++ words_text (entry_words (Entry.Start cuts.now point.now directions.now))) }
{
    into.append(b"start")?;
    put_naturals(cuts, into)?;
    put_vector(point, into)?;
    put_vector(directions, into)?;
    Ok(())
}

fn put_add_entry(cut: u32, pairs: &[LogPair], into: &mut Bytes) -> Result<(), NoMemory>
    ensures { OnOk result (into.new ≡ into.old
        ++ words_text (entry_words (Entry.Add cut pairs.now))) }
{
    into.append(b"add")?;
    put_natural(cut, into)?;
    put_pairs(pairs, into)?;
    Ok(())
}

fn put_point_entry(generator: u32, x: &[Spot], m: &[Spot], into: &mut Bytes) -> Result<(), NoMemory>
    ensures { OnOk result (into.new ≡ into.old
        ++ words_text (entry_words (Entry.Point generator x.now m.now))) }
{
    into.append(b"point")?;
    put_natural(generator, into)?;
    put_sparse(x, into)?;
    put_sparse(m, into)?;
    Ok(())
}

fn put_ray_entry(generator: u32, x: &[Spot], m: &[Spot], into: &mut Bytes) -> Result<(), NoMemory>
    ensures { OnOk result (into.new ≡ into.old
        ++ words_text (entry_words (Entry.Ray generator x.now m.now))) }
{
    into.append(b"ray")?;
    put_natural(generator, into)?;
    put_sparse(x, into)?;
    put_sparse(m, into)?;
    Ok(())
}

fn put_farkas_entry(u: &[Spot], into: &mut Bytes) -> Result<(), NoMemory>
    ensures { OnOk result (into.new ≡ into.old ++ words_text (entry_words (Entry.Farkas u.now))) }
{
    into.append(b"farkas")?;
    put_sparse(u, into)?;
    Ok(())
}

fn put_whole_entry(x: &[Spot], ray: &[Spot], m: &[Spot], into: &mut Bytes) -> Result<(), NoMemory>
    ensures { OnOk result (into.new ≡ into.old
        ++ words_text (entry_words (Entry.Whole x.now ray.now m.now))) }
{
    into.append(b"whole")?;
    put_sparse(x, into)?;
    put_sparse(ray, into)?;
    put_sparse(m, into)?;
    Ok(())
}

fn put_line_entry(
    d: &[Frac],
    x: &[Spot],
    ray: &[Spot],
    m: &[Spot],
    back: &[Spot],
    n: &[Spot],
    into: &mut Bytes,
) -> Result<(), NoMemory>
    ensures { OnOk result (into.new ≡ into.old
        ++ words_text (entry_words (Entry.Line d.now x.now ray.now m.now back.now n.now))) }
{
    into.append(b"line")?;
    put_vector(d, into)?;
    put_sparse(x, into)?;
    put_sparse(ray, into)?;
    put_sparse(m, into)?;
    put_sparse(back, into)?;
    put_sparse(n, into)?;
    Ok(())
}

fn put_facet_entry(cut: u32, into: &mut Bytes) -> Result<(), NoMemory>
    ensures { OnOk result (into.new ≡ into.old ++ words_text (entry_words (Entry.Facet cut))) }
{
    into.append(b"facet")?;
    put_natural(cut, into)?;
    Ok(())
}

fn put_end_entry(kind: EndKind, into: &mut Bytes) -> Result<(), NoMemory>
    ensures { OnOk result (into.new ≡ into.old ++ words_text (entry_words (Entry.End kind))) }
{
    into.append(b"end")?;
    put_kind(kind, into)?;
    Ok(())
}

fn put_share_entry(v: &[Spot], into: &mut Bytes) -> Result<(), NoMemory>
    ensures { OnOk result (into.new ≡ into.old ++ words_text (entry_words (Entry.Share v.now))) }
{
    into.append(b"share")?;
    put_sparse(v, into)?;
    Ok(())
}

fn put_cutof_entry(
    w: &[Frac],
    gamma: Frac,
    share: u32,
    v: &[Spot],
    into: &mut Bytes,
) -> Result<(), NoMemory>
    ensures { OnOk result (into.new ≡ into.old
        ++ words_text (entry_words (Entry.CutOf w.now gamma share v.now))) }
{
    into.append(b"cutof")?;
    put_vector(w, into)?;
    put_number(gamma, into)?;
    put_natural(share, into)?;
    put_sparse(v, into)?;
    Ok(())
}

fn put_pointof_entry(
    generator: u32,
    share: u32,
    m: &[Spot],
    into: &mut Bytes,
) -> Result<(), NoMemory>
    ensures { OnOk result (into.new ≡ into.old
        ++ words_text (entry_words (Entry.PointOf generator share m.now))) }
{
    into.append(b"pointof")?;
    put_natural(generator, into)?;
    put_natural(share, into)?;
    put_sparse(m, into)?;
    Ok(())
}

fn put_rayof_entry(generator: u32, share: u32, m: &[Spot], into: &mut Bytes) -> Result<(), NoMemory>
    ensures { OnOk result (into.new ≡ into.old
        ++ words_text (entry_words (Entry.RayOf generator share m.now))) }
{
    into.append(b"rayof")?;
    put_natural(generator, into)?;
    put_natural(share, into)?;
    put_sparse(m, into)?;
    Ok(())
}

fn put_addh_entry(
    cut: u32,
    pairs: &[LogPair],
    hints: &[u32],
    into: &mut Bytes,
) -> Result<(), NoMemory>
    ensures { OnOk result (into.new ≡ into.old
        ++ words_text (entry_words (Entry.AddHints cut pairs.now hints.now))) }
{
    into.append(b"addh")?;
    put_natural(cut, into)?;
    put_pairs(pairs, into)?;
    put_naturals(hints, into)?;
    Ok(())
}

/// Appends the words of an entry's line.
pub(crate) fn put_entry(entry: &Entry, into: &mut Bytes) -> Result<(), NoMemory>
    ensures { OnOk result (into.new ≡ into.old ++ words_text (entry_words entry.now)) }
{
    match entry {
        Entry::Version(number) => put_version_entry(*number, into),
        Entry::Duality {
            c,
            weights,
            picks,
            inverse,
        } => put_duality_entry(
            c.as_slice(),
            weights.as_slice(),
            picks.as_slice(),
            inverse.as_slice(),
            into,
        ),
        Entry::Cut { w, gamma, u, v } => put_cut_entry(
            w.as_slice(),
            *gamma,
            u.as_slice(),
            v.as_slice(),
            into,
        ),
        Entry::Start {
            cuts,
            point,
            directions,
        } => put_start_entry(
            cuts.as_slice(),
            point.as_slice(),
            directions.as_slice(),
            into,
        ),
        Entry::Add { cut, pairs } => put_add_entry(*cut, pairs.as_slice(), into),
        Entry::Point { generator, x, m } => put_point_entry(
            *generator,
            x.as_slice(),
            m.as_slice(),
            into,
        ),
        Entry::Ray { generator, x, m } => put_ray_entry(
            *generator,
            x.as_slice(),
            m.as_slice(),
            into,
        ),
        Entry::Farkas { u } => put_farkas_entry(u.as_slice(), into),
        Entry::Whole { x, ray, m } => put_whole_entry(
            x.as_slice(),
            ray.as_slice(),
            m.as_slice(),
            into,
        ),
        Entry::Line {
            d,
            x,
            ray,
            m,
            back,
            n,
        } => put_line_entry(
            d.as_slice(),
            x.as_slice(),
            ray.as_slice(),
            m.as_slice(),
            back.as_slice(),
            n.as_slice(),
            into,
        ),
        Entry::Facet { cut } => put_facet_entry(*cut, into),
        Entry::End(kind) => put_end_entry(*kind, into),
        Entry::Share { v } => put_share_entry(v.as_slice(), into),
        Entry::CutOf { w, gamma, share, v } => put_cutof_entry(
            w.as_slice(),
            *gamma,
            *share,
            v.as_slice(),
            into,
        ),
        Entry::PointOf {
            generator,
            share,
            m,
        } => put_pointof_entry(*generator, *share, m.as_slice(), into),
        Entry::RayOf {
            generator,
            share,
            m,
        } => put_rayof_entry(*generator, *share, m.as_slice(), into),
        Entry::AddHints { cut, pairs, hints } => put_addh_entry(
            *cut,
            pairs.as_slice(),
            hints.as_slice(),
            into,
        ),
    }
}

/// Puts the line of an entry after a text, with its line feed.
pub fn print_line(entry: &Entry, into: &mut Bytes) -> Result<(), NoMemory>
    ensures { OnOk result (into.new ≡ into.old ++ line_text (entry_words entry.now)) }
{
    word_lines::print_line(entry, into)
}

/// The text of a log: a line for each entry.
pub fn print_log(alloc: Global, entries: &Entries) -> Result<Bytes, NoMemory>
    ensures { IfOk result (λ text. text ≡ log_text entries.now) }
{
    print_entries(alloc, entries)
}
