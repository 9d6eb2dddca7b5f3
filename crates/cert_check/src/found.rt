//! What the entries of a log gave.
ghost use Rattle.std.specs.Prelude.{◌≡◌, List, [], ◌∷◌, ◌++◌, IfOk, OnOk};
ghost use Rattle.cert_check.specs.Keeping.{next_scale, next_farkas, next_whole, line_of, next_lines, next_ways, next_end};
ghost use Rattle.cert_check.specs.Standing.{HasFound};
ghost use Rattle.deriv_log.specs.declared.entry.Entry.{Entry};
ghost use Rattle.log_versions.specs.Plain.{plain};
ghost use Rattle.vlp_problem.specs.declared.problem.Dir.{Dir};

use deriv_log::{EndKind, Entry};
use frac128::{Sparse, Vector};
use log_rules::LineGen;
use src_sink::{Items, NoMemory};
use std::alloc::Global;
use vlp_problem::Dir;

/// A feasible point, and a direction along which the image is everything.
#[derive(Debug, Drop)]
pub struct FoundWhole {
    pub x: Sparse,
    pub ray: Sparse,
}

/// What the answers need of the plain entries before, besides what stands of a solved log.
#[derive(Debug, Drop)]
pub struct Found {
    pub farkas: Option<Sparse>,
    pub whole: Option<FoundWhole>,
    /// The lines, in the coordinates of the file.
    pub lines: Items<LineGen>,
    pub ended: Option<EndKind>,
}

pub fn copy_list<T: Copy + Drop>(alloc: Global, items: &Items<T>) -> Result<Items<T>, NoMemory>
    ensures { IfOk result (λ copy. copy ≡ items.now) }
{
    let mut copy = Items::new(alloc);
    copy.append(items.as_slice())?;
    Ok(copy)
}

/// Keeps the duality vector of the entry, if it has one.
pub fn keep_scale(alloc: Global, c: &mut Vector, entry: &Entry) -> Result<(), NoMemory>
    ensures { OnOk result (c.new ≡ next_scale c.old entry.now) }
{
    if let Entry::Duality { c: given, .. } = entry {
        *c = copy_list(alloc, given)?;
    }
    Ok(())
}

/// Keeps the multipliers of the entry, if it is a `farkas`.
fn keep_farkas(alloc: Global, farkas: &mut Option<Sparse>, entry: &Entry) -> Result<(), NoMemory>
    ensures { OnOk result (farkas.new ≡ next_farkas farkas.old entry.now) }
{
    if let Entry::Farkas { u } = entry {
        *farkas = Some(copy_list(alloc, u)?);
    }
    Ok(())
}

/// Keeps the point and the direction of the entry, if it is a `whole`.
fn keep_whole(alloc: Global, whole: &mut Option<FoundWhole>, entry: &Entry) -> Result<(), NoMemory>
    ensures { OnOk result (whole.new ≡ next_whole whole.old entry.now) }
{
    if let Entry::Whole { x, ray, .. } = entry {
        *whole = Some(FoundWhole {
            x: copy_list(alloc, x)?,
            ray: copy_list(alloc, ray)?,
        });
    }
    Ok(())
}

/// A line with its pre-images, which change places where the file maximises.
fn line_gen(
    alloc: Global,
    dir: Dir,
    d: &Vector,
    ray: &Sparse,
    back: &Sparse,
) -> Result<LineGen, NoMemory>
    ensures { IfOk result (λ line. line ≡ line_of dir d.now ray.now back.now) }
{
    let d = copy_list(alloc, d)?;
    let ray = copy_list(alloc, ray)?;
    let back = copy_list(alloc, back)?;
    match dir {
        Dir::Min => Ok(LineGen { d, ray, back }),
        Dir::Max => Ok(LineGen {
            d,
            ray: back,
            back: ray,
        }),
    }
}

/// Keeps the line of the entry, if it is a `line`.
fn keep_line(
    alloc: Global,
    dir: Dir,
    lines: &mut Items<LineGen>,
    entry: &Entry,
) -> Result<(), NoMemory>
    ensures { OnOk result (lines.new ≡ next_lines dir lines.old entry.now) }
{
    if let Entry::Line { d, ray, back, .. } = entry {
        lines.push(line_gen(alloc, dir, d, ray, back)?)?;
    }
    Ok(())
}

/// Keeps the vector of the entry, if it is a `line`.
pub fn keep_way(alloc: Global, lines: &mut Items<Vector>, entry: &Entry) -> Result<(), NoMemory>
    ensures { OnOk result (lines.new ≡ next_ways lines.old entry.now) }
{
    if let Entry::Line { d, .. } = entry {
        lines.push(copy_list(alloc, d)?)?;
    }
    Ok(())
}

/// Keeps the kind of the entry, if it is an end.
fn keep_end(ended: &mut Option<EndKind>, entry: &Entry)
    ensures { ended.new ≡ next_end ended.old entry.now }
{
    if let Entry::End(kind) = entry {
        *ended = Some(*kind);
    }
}

impl Found {
    /// Where there is no entry.
    pub fn new(alloc: Global) -> Found
        ensures { (dir : Dir) → HasFound dir [] result }
    {
        Found {
            farkas: None,
            whole: None,
            lines: Items::new(alloc),
            ended: None,
        }
    }

    /// Keeps what an answer needs of one more entry.
    pub fn keep(&mut self, alloc: Global, dir: Dir, entry: &Entry) -> Result<(), NoMemory>
        ensures { (before : List Entry) → HasFound dir (plain before) self.old
            → OnOk result (HasFound dir (plain (before ++ entry.now ∷ [])) self.new) }
    {
        keep_farkas(alloc, &mut self.farkas, entry)?;
        keep_whole(alloc, &mut self.whole, entry)?;
        keep_line(alloc, dir, &mut self.lines, entry)?;
        keep_end(&mut self.ended, entry);
        Ok(())
    }
}
