//! The reader of vlp files.
ghost use Rattle.std.specs.Prelude.{◌≡◌, ◌≤◌, List, length, Ok, Err, MatchResult};
ghost use Rattle.vlp_reader.specs.Drafts.{Has, HasRead, Begins};
ghost use Rattle.vlp_reader.specs.FirstFault.{Reads};
ghost use Rattle.vlp_reader.specs.Grammar.{is_kind as is_kind_letter, line_fault, statement_fault, formed, sizes_fault};
ghost use Rattle.vlp_reader.specs.Lines.{words_of};
ghost use Rattle.vlp_reader.specs.Reading.{EndsReading, TakesLine, TakesWords, ClosesOr};
ghost use Rattle.vlp_reader.specs.Statements.{sizes_of, statement_of};
ghost use Rattle.vlp_reader.specs.Ends.{ComesFrom, end_at};
ghost use Rattle.vlp_reader.specs.declared.statement.Statement.{Statement};

use crate::draft::Draft;
use crate::fault::{FileKind, LineEnd, VlpEnd};
use crate::sizes::Sizes;
use crate::statement::Statement;
use crate::text::{letter, next_line, next_word};
use src_sink::MOST_ITEMS;
use std::alloc::Global;
use vlp_problem::Problem;

/// A line has at most so many bytes.
const LINE_BYTES: usize = 4_096;

/// Whether this is the letter of a kind of line that has tests.
fn is_kind(letter: u8) -> bool
    ensures { result ≡ is_kind_letter letter }
{
    matches!(letter, b'p' | b'a' | b'o' | b'k' | b'i' | b'j' | b'e')
}

/// The draft of a problem of these words.
fn begin(alloc: Global, words: &[u8]) -> Result<Draft, LineEnd>
    ensures { MatchResult result
        (Begins (words_of words.now))
        (ComesFrom (formed (sizes_of (words_of words.now)) sizes_fault)) }
{
    let Some(sizes) = Sizes::read(words) else {
        return Err(LineEnd::Kind(FileKind::BadLine));
    };
    if let Some(kind) = sizes.fault() {
        return Err(LineEnd::Kind(kind));
    }
    Ok(Draft::new(alloc, sizes)?)
}

/// Takes a line of a kind after the sizes, and answers whether it is an `e` line.
fn take_words(draft: &mut Draft, kind: u8, words: &[u8]) -> Result<bool, LineEnd>
    ensures { (earlier : List Statement) → Has draft.old earlier
        → MatchResult result (TakesWords kind (words_of words.now) earlier draft.old draft.new)
        (ComesFrom (formed (statement_of kind (words_of words.now))
        (statement_fault earlier draft.old.sizes))) }
{
    let Some(statement) = Statement::read(kind, words) else {
        return Err(LineEnd::Kind(FileKind::BadLine));
    };
    draft.take(statement)?;
    Ok(matches!(statement, Statement::End))
}

/// Takes the next line, and answers whether it is an `e` line.
fn take_line(alloc: Global, draft: &mut Option<Draft>, line: &[u8]) -> Result<bool, LineEnd>
    ensures { (earlier : List Statement) → HasRead draft.old earlier → MatchResult result
        (TakesLine line.now earlier draft.new)
        (ComesFrom (line_fault earlier line.now)) }
{
    if line.len() > LINE_BYTES {
        return Err(LineEnd::Kind(FileKind::LineLong));
    }
    let Some((first, words)) = next_word(line) else {
        return Ok(false);
    };
    let kind = letter(first);
    if kind == b'c' {
        return Ok(false);
    }
    if !is_kind(kind) {
        return Err(LineEnd::Kind(FileKind::BadLine));
    }
    match draft {
        None => {
            if kind != b'p' {
                return Err(LineEnd::Kind(FileKind::NoProblem));
            }
            *draft = Some(begin(alloc, words)?);
            Ok(false)
        }
        Some(draft) => {
            if kind == b'p' {
                return Err(LineEnd::Kind(FileKind::Twice));
            }
            take_words(draft, kind, words)
        }
    }
}

/// The problem that all lines give.
fn close(alloc: Global, draft: Option<Draft>) -> Result<Problem, LineEnd>
    ensures { (statements : List Statement) → HasRead draft statements
        → ClosesOr statements result }
{
    match draft {
        None => Err(LineEnd::Kind(FileKind::NoProblem)),
        Some(draft) => draft.finish(alloc),
    }
}

/// What closing gave, on this line.
fn end_reading(line: u32, closed: Result<Problem, LineEnd>) -> Result<Problem, VlpEnd>
    ensures { MatchResult closed (λ problem. result ≡ Ok problem)
        (λ end. result ≡ Err (end_at line end)) }
{
    match closed {
        Ok(problem) => Ok(problem),
        Err(end) => Err(VlpEnd::at(line, end)),
    }
}

/// The problem of a vlp file, or the first fault of the file.
pub fn read_vlp(alloc: Global, bytes: &[u8]) -> Result<Problem, VlpEnd>
    requires { length bytes.now ≤ MOST_ITEMS }
    ensures { MatchResult result (Reads bytes.now) (EndsReading bytes.now) }
{
    let mut draft = None;
    let mut number = 0;
    let mut rest = bytes;
    while let Some((line, next)) = next_line(rest) {
        rest = next;
        number += 1;
        match take_line(alloc, &mut draft, line) {
            Ok(true) => return end_reading(number, close(alloc, draft)),
            Ok(false) => {}
            Err(end) => return Err(VlpEnd::at(number, end)),
        }
    }
    end_reading(number + 1, close(alloc, draft))
}
