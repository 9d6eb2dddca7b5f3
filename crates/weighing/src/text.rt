//! The text of the facets that are told of points, and that of a weighing.
ghost use Rattle.std.specs.Prelude.{◌≡◌, ◌≤◌, ◌++◌, [], List, length, map, codes, IfOk, OnOk};
ghost use Rattle.std.specs.List.{flat_map};
ghost use Rattle.log_rules.specs.Report.{answer_name, vector_line};
ghost use Rattle.sol_writer.specs.Lines.{lines_text};
ghost use Rattle.src_sink.specs.Texts.{line_text};
ghost use Rattle.weighing.specs.Text.{found_lines, image_lines, points_of, sets_lines, solution_lines, weighed_text, weights_text};
ghost use Rattle.weighing.specs.Weighing.{point_at};
ghost use Rattle.weighing.specs.declared.weighed.Weighed.TheVariants.{Least, Unbounded};

use crate::lines::{put_answer, put_numbers, put_value};
use crate::sets::weight_sets;
use crate::weighed::Weighed;
use frac128::Frac;
use log_rules::{Answer, Facet, Gen};
use sol_writer::{put_counted, put_facet_lines, put_vector_line};
use src_sink::{Bytes, Items, NoMemory};
use std::alloc::Global;

/// The name of an answer's kind.
fn answer_name(answer: &Answer) -> &'static [u8]
    ensures { result.now ≡ answer_name answer.now }
{
    match answer {
        Answer::Infeasible { .. } => b"infeasible",
        Answer::Whole { .. } => b"whole",
        Answer::Solved { .. } => b"solved",
    }
}

/// The numbers at which each facet is tight.
fn tight_lists(alloc: Global, facets: &[Facet]) -> Result<Items<Items<u32>>, NoMemory>
    ensures { IfOk result (λ lists. lists ≡ map (λ f. f.tight) facets.now) }
{
    let mut lists = Items::new(alloc);
    for facet in facets {
        let mut numbers = Items::new(alloc);
        numbers.append(facet.tight.as_slice())?;
        lists.push(numbers)?;
    }
    Ok(lists)
}

/// Appends the lines of each point and of the facets that are told of it.
fn put_sets(points: &[Gen], sets: &[Items<u32>], into: &mut Bytes) -> Result<(), NoMemory>
    requires { length sets.now ≡ length points.now }
    ensures { OnOk result (into.new ≡ into.old ++ lines_text (sets_lines points.now sets.now)) }
{
    for (index, point) in points.iter().enumerate() {
        put_vector_line(b"1", point.y.as_slice(), into)?;
        put_numbers(sets[index].as_slice(), into)?;
    }
    Ok(())
}

/// Appends the points with the facets that are told of them, and the facets.
fn put_image(
    alloc: Global,
    points: &[Gen],
    facets: &[Facet],
    into: &mut Bytes,
) -> Result<(), NoMemory>
    requires { length points.now ≤ 4294967294 }
    ensures { OnOk result (into.new ≡ into.old ++ lines_text (image_lines points.now facets.now)) }
{
    let lists = tight_lists(alloc, facets)?;
    let sets = weight_sets(alloc, &lists, points.len() as u32)?;
    put_counted(b"points", points.len(), into)?;
    put_sets(points, sets.as_slice(), into)?;
    put_counted(b"facets", facets.len(), into)?;
    put_facet_lines(facets, into)?;
    Ok(())
}

/// Appends what an answer tells of points and facets, where it has any.
fn put_solution(alloc: Global, answer: &Answer, into: &mut Bytes) -> Result<(), NoMemory>
    ensures { OnOk result (into.new ≡ into.old ++ lines_text (solution_lines answer.now)) }
{
    match answer {
        Answer::Infeasible { .. } | Answer::Whole { .. } => Ok(()),
        Answer::Solved {
            c: _,
            lines: _,
            points,
            directions: _,
            facets,
        } => put_image(alloc, points.as_slice(), facets.as_slice(), into),
    }
}

/// The text of an answer's points, each with the facets that are tight at it, and of its facets.
pub fn weights_text(alloc: Global, answer: &Answer) -> Result<Bytes, NoMemory>
    ensures { IfOk result (λ text. text ≡ weights_text answer.now) }
{
    let mut text = Bytes::new(alloc);
    text.append(b"weights 1\n")?;
    put_answer(answer_name(answer), &mut text)?;
    put_solution(alloc, answer, &mut text)?;
    Ok(text)
}

/// The entries of a point by its number, from 1 on; none where there is no such point.
fn entries_at(points: &[Gen], number: u32) -> &[Frac]
    ensures { result.now ≡ point_at points.now number }
{
    let index = (number as usize).saturating_sub(1);
    if index < points.len() {
        points[index].y.as_slice()
    } else {
        &[]
    }
}

/// Appends the line of each of some points, by their numbers.
fn put_points(points: &[Gen], numbers: &[u32], into: &mut Bytes) -> Result<(), NoMemory>
    ensures { OnOk result (into.new
        ≡ into.old
        ++ flat_map (λ k. line_text (vector_line (codes "1") (point_at points.now k)))
        numbers.now) }
{
    for number in numbers {
        put_vector_line(b"1", entries_at(points, *number), into)?;
    }
    Ok(())
}

/// Appends the least value and the points that have it.
fn put_least(points: &[Gen], value: Frac, numbers: &[u32], into: &mut Bytes) -> Result<(), NoMemory>
    ensures { OnOk result (into.new ≡ into.old
        ++ lines_text (found_lines points.now (Least value numbers.now))) }
{
    put_answer(b"solved", into)?;
    put_value(value, into)?;
    put_counted(b"points", numbers.len(), into)?;
    put_points(points, numbers, into)?;
    Ok(())
}

/// Appends the direction in which the value goes down for ever.
fn put_unbounded(d: &[Frac], into: &mut Bytes) -> Result<(), NoMemory>
    ensures { OnOk result (into.new ≡ into.old ++ lines_text (found_lines [] (Unbounded d.now))) }
{
    put_answer(b"unbounded", into)?;
    put_vector_line(b"0", d, into)?;
    Ok(())
}

/// Appends what is found among points.
fn put_found(points: &[Gen], weighed: &Weighed, into: &mut Bytes) -> Result<(), NoMemory>
    ensures { OnOk result
        (into.new ≡ into.old ++ lines_text (found_lines points.now weighed.now)) }
{
    match weighed {
        Weighed::Empty => put_answer(b"infeasible", into),
        Weighed::Whole => put_answer(b"whole", into),
        Weighed::Unbounded { d } => put_unbounded(d.as_slice(), into),
        Weighed::Least {
            value,
            points: numbers,
        } => put_least(points, *value, numbers.as_slice(), into),
    }
}

/// The points of an answer.
fn points_of(answer: &Answer) -> &[Gen]
    ensures { result.now ≡ points_of answer.now }
{
    match answer {
        Answer::Infeasible { .. } | Answer::Whole { .. } => &[],
        Answer::Solved { points, .. } => points.as_slice(),
    }
}

/// The text of a weighing, with the points of the answer.
pub fn weighed_text(alloc: Global, answer: &Answer, weighed: &Weighed) -> Result<Bytes, NoMemory>
    ensures { IfOk result (λ text. text ≡ weighed_text answer.now weighed.now) }
{
    let mut text = Bytes::new(alloc);
    text.append(b"weigh 1\n")?;
    put_found(points_of(answer), weighed, &mut text)?;
    Ok(text)
}
