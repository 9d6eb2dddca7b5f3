//! What is told of the answer of a sample file.
ghost use Rattle.std.specs.Prelude.{◌≡◌, IfOk};
ghost use Rattle.replies.specs.Summary.{IsSolved, Sums, summary_text};

use log_rules::Answer;
use sol_writer::put_counted;
use src_sink::{Bytes, NoMemory};
use std::alloc::Global;

/// The lines of a number and of how many points, directions and facets there are.
fn lines_of_counts(
    alloc: Global,
    number: u32,
    points: usize,
    directions: usize,
    facets: usize,
) -> Result<Bytes, NoMemory>
    ensures { IfOk result (λ text. text ≡ summary_text number points directions facets) }
{
    let mut text = Bytes::new(alloc);
    put_counted(b"sample", number as usize, &mut text)?;
    text.append(b"answer solved\n")?;
    put_counted(b"points", points, &mut text)?;
    put_counted(b"directions", directions, &mut text)?;
    put_counted(b"facets", facets, &mut text)?;
    Ok(text)
}

/// Five lines of the answer of a sample file: its number, that it is solved, and how many points,
/// directions and facets its image has.
pub fn summary(alloc: Global, number: u32, answer: &Answer) -> Result<Bytes, NoMemory>
    requires { IsSolved answer.now }
    ensures { IfOk result (Sums number answer.now) }
{
    match answer {
        Answer::Solved {
            points,
            directions,
            facets,
            ..
        } => lines_of_counts(alloc, number, points.len(), directions.len(), facets.len()),
        _ => unreachable!(),
    }
}
