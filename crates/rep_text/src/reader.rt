//! The reader of representations.
ghost use Rattle.std.specs.Prelude.{◌≡◌, ◌≤◌, ◌∷◌, [], Some, None, decimal, true, false, IfOk, IfErr, OnOk, MatchOption, MatchResult};
ghost use Rattle.rep_text.specs.RepFault.{is_head, kind_named, width_fault};
ghost use Rattle.rep_text.specs.RepText.{head_name, IsRepText};
ghost use Rattle.rep_text.specs.Fits.{row_length};
ghost use Rattle.rep_text.specs.RepReading.{is_width, place_fault, with_line, ReadsFirst, ReadsHead, ReadsLine, ReadsRow, RefusesFirst, RefusesLine, RefusesRep, TakesRow};
ghost use Rattle.word_lines.specs.LineFault.{word as one_word};
ghost use Rattle.word_lines.specs.Taking.{TakesItem};

use crate::fault::{RepEnd, end_at};
use crate::rep::{Rep, RepKind, RepRow};
use src_sink::{Items, NoMemory, first_piece};
use std::alloc::Global;
use word_lines::{Item, LogKind, Stop, Words, has_empty_word, is_word, take_items, text_after};

/// The most lines of a text.
const MOST_LINES: u32 = 10_000;

/// What the first line says: whether points, directions and lines stand after it, and their width.
#[derive(Clone, Copy)]
pub(crate) struct Head {
    pub gens: bool,
    pub width: u32,
}

fn head_kind(name: &[u8]) -> Option<bool>
    ensures { MatchOption result (is_head name.now ≡ false) (λ gens. name.now ≡ head_name gens) }
{
    if is_word(name, b"sides") {
        Some(false)
    } else if is_word(name, b"gens") {
        Some(true)
    } else {
        None
    }
}

/// A width, from 1 to 19.
fn take_width(words: &mut Words) -> Result<u32, Stop>
    ensures { TakesItem (λ n. decimal n ∷ []) is_width (one_word width_fault)
        words.old words.new result }
{
    let width = u32::take(words)?;
    if 1 <= width && width <= 19 {
        Ok(width)
    } else {
        Err(Stop::Fault(LogKind::OutOfRange))
    }
}

fn read_head(text: &[u8]) -> Result<Head, Stop>
    ensures { ReadsHead text.now result }
{
    if has_empty_word(text) {
        return Err(Stop::Fault(LogKind::BadLine));
    }
    let mut words = Words::of(text);
    let Some(name) = words.next() else {
        return Err(Stop::Fault(LogKind::BadLine));
    };
    let Some(gens) = head_kind(name) else {
        return Err(Stop::Fault(LogKind::BadLine));
    };
    let width = take_width(&mut words)?;
    match words.next() {
        Some(_) => Err(Stop::Fault(LogKind::BadLine)),
        None => Ok(Head { gens, width }),
    }
}

fn gens_kind(name: &[u8]) -> Option<RepKind>
    ensures { result ≡ kind_named true name.now }
{
    if is_word(name, b"l") {
        Some(RepKind::Line)
    } else if is_word(name, b"1") {
        Some(RepKind::Point)
    } else if is_word(name, b"0") {
        Some(RepKind::Direction)
    } else {
        None
    }
}

fn sides_kind(name: &[u8]) -> Option<RepKind>
    ensures { result ≡ kind_named false name.now }
{
    if is_word(name, b"h") {
        Some(RepKind::Side)
    } else if is_word(name, b"e") {
        Some(RepKind::Equal)
    } else {
        None
    }
}

/// The kind of a row with this first word.
fn row_kind(gens: bool, name: &[u8]) -> Option<RepKind>
    ensures { result ≡ kind_named gens name.now }
{
    if gens {
        gens_kind(name)
    } else {
        sides_kind(name)
    }
}

/// How many numbers a row has.
fn row_length(width: u32, kind: RepKind) -> u32
    requires { width ≤ 19 }
    ensures { result ≡ row_length width kind }
{
    match kind {
        RepKind::Side | RepKind::Equal => width + 1,
        RepKind::Line | RepKind::Point | RepKind::Direction => width,
    }
}

/// The row with this first word, of which the numbers stand first, or none at the end's.
fn take_row(
    alloc: Global,
    head: Head,
    name: &[u8],
    words: &mut Words,
) -> Result<Option<RepRow>, Stop>
    requires { head.width ≤ 19 }
    ensures { TakesRow head name.now words.old words.new result }
{
    if is_word(name, b"end") {
        return Ok(None);
    }
    let Some(kind) = row_kind(head.gens, name) else {
        return Err(Stop::Fault(LogKind::BadLine));
    };
    let v = take_items(alloc, row_length(head.width, kind), words)?;
    Ok(Some(RepRow { kind, v }))
}

/// The row of the words of a line, or none at the end.
fn read_row(alloc: Global, head: Head, text: &[u8]) -> Result<Option<RepRow>, Stop>
    requires { head.width ≤ 19 }
    ensures { ReadsRow head text.now result }
{
    if has_empty_word(text) {
        return Err(Stop::Fault(LogKind::BadLine));
    }
    let mut words = Words::of(text);
    let Some(name) = words.next() else {
        return Err(Stop::Fault(LogKind::BadLine));
    };
    let row = take_row(alloc, head, name, &mut words)?;
    match words.next() {
        Some(_) => Err(Stop::Fault(LogKind::BadLine)),
        None => Ok(row),
    }
}

/// Whether a line may stand after so many.
fn may_stand(before: u32, ended: bool, whole: bool) -> Result<(), LogKind>
    ensures { MatchResult result (λ _. place_fault before ended whole ≡ None)
        (λ kind. place_fault before ended whole ≡ Some kind) }
{
    if before >= MOST_LINES {
        Err(LogKind::OutOfRange)
    } else if ended || !whole {
        Err(LogKind::BadLine)
    } else {
        Ok(())
    }
}

/// What was read of a text, so many lines: the first line, the rows, and whether an `end` line
/// stands after them.
#[derive(Drop)]
pub(crate) struct Reading {
    pub head: Head,
    pub rows: Items<RepRow>,
    pub before: u32,
    pub ended: bool,
}

impl Reading {
    /// The next row, or none at the end.
    fn row(&self, alloc: Global, text: &[u8], whole: bool) -> Result<Option<RepRow>, RepEnd>
        requires width { self.now.head.width ≤ 19 }
        requires few { self.now.before ≤ 10000 }
        ensures ok { IfOk result
            (ReadsLine self.now.head self.now.before self.now.ended whole text.now) }
        ensures refused { IfErr result
            (RefusesLine self.now.head self.now.before self.now.ended whole text.now) }
    {
        if let Err(kind) = may_stand(self.before, self.ended, whole) {
            return Err(end_at(Stop::Fault(kind), self.before + 1));
        }
        match read_row(alloc, self.head, text) {
            Ok(row) => Ok(row),
            Err(stop) => Err(end_at(stop, self.before + 1)),
        }
    }

    /// With a row more, or the end.
    fn add(&mut self, row: Option<RepRow>) -> Result<(), NoMemory>
        requires { self.old.before ≤ 10000 }
        ensures { OnOk result (self.new ≡ with_line self.old row) }
    {
        self.before += 1;
        match row {
            Some(row) => self.rows.push(row),
            None => {
                self.ended = true;
                Ok(())
            }
        }
    }
}

/// The first line of a text.
fn read_first(alloc: Global, text: &[u8], whole: bool) -> Result<Reading, RepEnd>
    ensures ok { IfOk result (ReadsFirst whole text.now) }
    ensures refused { IfErr result (RefusesFirst whole text.now) }
{
    if !whole {
        return Err(end_at(Stop::Fault(LogKind::BadLine), 1));
    }
    match read_head(text) {
        Ok(head) => Ok(Reading {
            head,
            rows: Items::new(alloc),
            before: 1,
            ended: false,
        }),
        Err(stop) => Err(end_at(stop, 1)),
    }
}

/// The representation of this text, or its first fault. Lines are read one at a time, up to the
/// first that has a fault; there are at most 10,000.
pub fn read_rep(alloc: Global, bytes: &[u8]) -> Result<Rep, RepEnd>
    ensures ok { IfOk result (IsRepText bytes.now) }
    ensures refused { IfErr result (RefusesRep bytes.now) }
{
    if bytes.is_empty() {
        return Err(end_at(Stop::Fault(LogKind::NoEnd), 1));
    }
    let (line, after) = first_piece(bytes, b'\n');
    let mut reading = read_first(alloc, line, after.is_some())?;
    let mut rest = text_after(after);
    while !rest.is_empty() {
        let (line, after) = first_piece(rest, b'\n');
        let row = reading.row(alloc, line, after.is_some())?;
        reading.add(row)?;
        rest = text_after(after);
    }
    if !reading.ended {
        return Err(end_at(Stop::Fault(LogKind::NoEnd), reading.before + 1));
    }
    Ok(Rep {
        gens: reading.head.gens,
        width: reading.head.width,
        rows: reading.rows,
    })
}
