//! The entries of a log.
ghost use Rattle.std.specs.Prelude.{◌≡◌, IfOk};
ghost use Rattle.deriv_log.specs.Taking.{IsSecond};

use frac128::{Frac, Sparse, Vector};
use src_sink::{Items, NoMemory};
use std::alloc::Global;
use word_lines::{EndKind, LogPair};

/// An entry of a log: a line of its text. Vectors stand in working coordinates, those of the
/// minimising problem.
#[derive(Debug, Drop)]
pub enum Entry {
    /// The version of the log's form.
    Version(u32),
    /// The duality vector, with what shows that it is interior to the cone.
    Duality {
        c: Vector,
        weights: Vector,
        picks: Items<u32>,
        inverse: Vector,
    },
    /// The inequality `w.y >= gamma`, with its dual vector u, and v where the cone is in dual form.
    Cut {
        w: Vector,
        gamma: Frac,
        u: Sparse,
        v: Sparse,
    },
    /// The first generators: those of the cone of these cuts.
    Start {
        cuts: Items<u32>,
        point: Vector,
        directions: Vector,
    },
    /// A cut that comes into use, with the pairs of generators that give new ones.
    Add {
        cut: u32,
        pairs: Items<LogPair>,
    },
    /// A pre-image of a live point.
    Point {
        generator: u32,
        x: Sparse,
        m: Sparse,
    },
    /// A pre-image of a live direction.
    Ray {
        generator: u32,
        x: Sparse,
        m: Sparse,
    },
    /// Multipliers of the sides that show that they contradict each other (Farkas' lemma).
    Farkas {
        u: Sparse,
    },
    /// A feasible point, and a direction in which the image is everything.
    Whole {
        x: Sparse,
        ray: Sparse,
        m: Sparse,
    },
    /// A line of the image, by the pre-images of both its directions.
    Line {
        d: Vector,
        x: Sparse,
        ray: Sparse,
        m: Sparse,
        back: Sparse,
        n: Sparse,
    },
    /// The number of a cut that is a facet.
    Facet {
        cut: u32,
    },
    /// The end of the log, and of which kind it is.
    End(EndKind),
    /// A vector that later entries share; it gets the next number, from 1.
    Share {
        v: Sparse,
    },
    /// A cut whose dual vector is a shared one.
    CutOf {
        w: Vector,
        gamma: Frac,
        share: u32,
        v: Sparse,
    },
    /// A pre-image of a live point that is a shared vector.
    PointOf {
        generator: u32,
        share: u32,
        m: Sparse,
    },
    /// A pre-image of a live direction that is a shared vector.
    RayOf {
        generator: u32,
        share: u32,
        m: Sparse,
    },
    /// A cut that comes into use, with the pairs of generators that give new ones, and for each
    /// other opposite pair a third generator that covers it.
    AddHints {
        cut: u32,
        pairs: Items<LogPair>,
        hints: Items<u32>,
    },
}

fn copy_items<T: Copy + Drop>(alloc: Global, items: &Items<T>) -> Result<Items<T>, NoMemory>
    ensures { IfOk result (λ copy. copy ≡ items.now) }
{
    let mut copy = Items::new(alloc);
    copy.append(items.as_slice())?;
    Ok(copy)
}

fn copy_duality(
    alloc: Global,
    c: &Vector,
    weights: &Vector,
    picks: &Items<u32>,
    inverse: &Vector,
) -> Result<Entry, NoMemory>
    ensures { IfOk result (λ copy. copy ≡ Entry.Duality c.now weights.now picks.now inverse.now) }
{
    Ok(Entry::Duality {
        c: copy_items(alloc, c)?,
        weights: copy_items(alloc, weights)?,
        picks: copy_items(alloc, picks)?,
        inverse: copy_items(alloc, inverse)?,
    })
}

fn copy_cut(
    alloc: Global,
    w: &Vector,
    gamma: Frac,
    u: &Sparse,
    v: &Sparse,
) -> Result<Entry, NoMemory>
    ensures { IfOk result (λ copy. copy ≡ Entry.Cut w.now gamma u.now v.now) }
{
    Ok(Entry::Cut {
        w: copy_items(alloc, w)?,
        gamma,
        u: copy_items(alloc, u)?,
        v: copy_items(alloc, v)?,
    })
}

fn copy_start(
    alloc: Global,
    cuts: &Items<u32>,
    point: &Vector,
    directions: &Vector,
) -> Result<Entry, NoMemory>
    ensures { IfOk result (λ copy. copy ≡ Entry.Start cuts.now point.now directions.now) }
{
    Ok(Entry::Start {
        cuts: copy_items(alloc, cuts)?,
        point: copy_items(alloc, point)?,
        directions: copy_items(alloc, directions)?,
    })
}

fn copy_add(alloc: Global, cut: u32, pairs: &Items<LogPair>) -> Result<Entry, NoMemory>
    ensures { IfOk result (λ copy. copy ≡ Entry.Add cut pairs.now) }
{
    let pairs = copy_items(alloc, pairs)?;
    Ok(Entry::Add { cut, pairs })
}

fn copy_point(alloc: Global, generator: u32, x: &Sparse, m: &Sparse) -> Result<Entry, NoMemory>
    ensures { IfOk result (λ copy. copy ≡ Entry.Point generator x.now m.now) }
{
    let x = copy_items(alloc, x)?;
    let m = copy_items(alloc, m)?;
    Ok(Entry::Point { generator, x, m })
}

fn copy_ray(alloc: Global, generator: u32, x: &Sparse, m: &Sparse) -> Result<Entry, NoMemory>
    ensures { IfOk result (λ copy. copy ≡ Entry.Ray generator x.now m.now) }
{
    let x = copy_items(alloc, x)?;
    let m = copy_items(alloc, m)?;
    Ok(Entry::Ray { generator, x, m })
}

fn copy_farkas(alloc: Global, u: &Sparse) -> Result<Entry, NoMemory>
    ensures { IfOk result (λ copy. copy ≡ Entry.Farkas u.now) }
{
    let u = copy_items(alloc, u)?;
    Ok(Entry::Farkas { u })
}

fn copy_whole(alloc: Global, x: &Sparse, ray: &Sparse, m: &Sparse) -> Result<Entry, NoMemory>
    ensures { IfOk result (λ copy. copy ≡ Entry.Whole x.now ray.now m.now) }
{
    let x = copy_items(alloc, x)?;
    let ray = copy_items(alloc, ray)?;
    let m = copy_items(alloc, m)?;
    Ok(Entry::Whole { x, ray, m })
}

fn copy_line(
    alloc: Global,
    d: &Vector,
    x: &Sparse,
    ray: &Sparse,
    m: &Sparse,
    back: &Sparse,
    n: &Sparse,
) -> Result<Entry, NoMemory>
    ensures { IfOk result (λ copy. copy ≡ Entry.Line d.now x.now ray.now m.now back.now n.now) }
{
    Ok(Entry::Line {
        d: copy_items(alloc, d)?,
        x: copy_items(alloc, x)?,
        ray: copy_items(alloc, ray)?,
        m: copy_items(alloc, m)?,
        back: copy_items(alloc, back)?,
        n: copy_items(alloc, n)?,
    })
}

fn copy_share(alloc: Global, v: &Sparse) -> Result<Entry, NoMemory>
    ensures { IfOk result (λ copy. copy ≡ Entry.Share v.now) }
{
    let v = copy_items(alloc, v)?;
    Ok(Entry::Share { v })
}

fn copy_cutof(
    alloc: Global,
    w: &Vector,
    gamma: Frac,
    share: u32,
    v: &Sparse,
) -> Result<Entry, NoMemory>
    ensures { IfOk result (λ copy. copy ≡ Entry.CutOf w.now gamma share v.now) }
{
    let w = copy_items(alloc, w)?;
    let v = copy_items(alloc, v)?;
    Ok(Entry::CutOf { w, gamma, share, v })
}

fn copy_pointof(alloc: Global, generator: u32, share: u32, m: &Sparse) -> Result<Entry, NoMemory>
    ensures { IfOk result (λ copy. copy ≡ Entry.PointOf generator share m.now) }
{
    let m = copy_items(alloc, m)?;
    Ok(Entry::PointOf {
        generator,
        share,
        m,
    })
}

fn copy_rayof(alloc: Global, generator: u32, share: u32, m: &Sparse) -> Result<Entry, NoMemory>
    ensures { IfOk result (λ copy. copy ≡ Entry.RayOf generator share m.now) }
{
    let m = copy_items(alloc, m)?;
    Ok(Entry::RayOf {
        generator,
        share,
        m,
    })
}

fn copy_addh(
    alloc: Global,
    cut: u32,
    pairs: &Items<LogPair>,
    hints: &Items<u32>,
) -> Result<Entry, NoMemory>
    ensures { IfOk result (λ copy. copy ≡ Entry.AddHints cut pairs.now hints.now) }
{
    let pairs = copy_items(alloc, pairs)?;
    let hints = copy_items(alloc, hints)?;
    Ok(Entry::AddHints { cut, pairs, hints })
}

impl Entry {
    /// A copy, with lists of its own. It costs their lengths.
    pub fn copy(&self, alloc: Global) -> Result<Entry, NoMemory>
        ensures { IfOk result (λ copy. copy ≡ self.now) }
    {
        match self {
            Entry::Version(number) => Ok(Entry::Version(*number)),
            Entry::Duality {
                c,
                weights,
                picks,
                inverse,
            } => copy_duality(alloc, c, weights, picks, inverse),
            Entry::Cut { w, gamma, u, v } => copy_cut(alloc, w, *gamma, u, v),
            Entry::Start {
                cuts,
                point,
                directions,
            } => copy_start(alloc, cuts, point, directions),
            Entry::Add { cut, pairs } => copy_add(alloc, *cut, pairs),
            Entry::Point { generator, x, m } => copy_point(alloc, *generator, x, m),
            Entry::Ray { generator, x, m } => copy_ray(alloc, *generator, x, m),
            Entry::Farkas { u } => copy_farkas(alloc, u),
            Entry::Whole { x, ray, m } => copy_whole(alloc, x, ray, m),
            Entry::Line {
                d,
                x,
                ray,
                m,
                back,
                n,
            } => copy_line(alloc, d, x, ray, m, back, n),
            Entry::Facet { cut } => Ok(Entry::Facet { cut: *cut }),
            Entry::End(kind) => Ok(Entry::End(*kind)),
            _ => self.copy_second(alloc),
        }
    }

    /// The same of an entry of version 2.
    fn copy_second(&self, alloc: Global) -> Result<Entry, NoMemory>
        requires { IsSecond self.now }
        ensures { IfOk result (λ copy. copy ≡ self.now) }
    {
        match self {
            Entry::Share { v } => copy_share(alloc, v),
            Entry::CutOf { w, gamma, share, v } => copy_cutof(alloc, w, *gamma, *share, v),
            Entry::PointOf {
                generator,
                share,
                m,
            } => copy_pointof(alloc, *generator, *share, m),
            Entry::RayOf {
                generator,
                share,
                m,
            } => copy_rayof(alloc, *generator, *share, m),
            Entry::AddHints { cut, pairs, hints } => copy_addh(alloc, *cut, pairs, hints),
            _ => unreachable!(),
        }
    }
}

/// The entries of a log, in their order.
pub type Entries = Items<Entry>;
