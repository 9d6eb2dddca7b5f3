//! The texts that the lists name.
use crate::Fault;
use std::alloc::Global;
use std::fs;
use std::rt::Files;

/// The fault of a part that means nothing.
pub(crate) fn part_fault(alloc: Global, part: &str) -> Fault {
    match String::from_str(alloc, part) {
        Ok(part) => Fault::Part(part),
        Err(_) => Fault::NoMemory,
    }
}

/// The number that a word is.
pub(crate) fn number(alloc: Global, word: &str) -> Result<u64, Fault> {
    word.parse().map_err(|_| part_fault(alloc, word))
}

/// The text that a value stands for.
pub(crate) fn text_of<R: Files + AllocGlobal>(rt: &R, value: &str) -> Result<String, Fault> {
    let Some(named) = value.strip_prefix('@') else {
        return read_plain(rt.alloc(), value);
    };
    match named.split_once(':') {
        None => Ok(fs::read_to_string(rt, named)?),
        Some((path, change)) => {
            let text = fs::read_to_string(rt, path)?;
            change_line(rt.alloc(), text.as_str(), change)
        }
    }
}

/// A text with other lines in place of the one that `NUMBER LINES` names, or without it.
fn change_line(alloc: Global, text: &str, change: &str) -> Result<String, Fault> {
    let (at, lines) = match change.split_once(' ') {
        None => (change, String::new(alloc)),
        Some((at, lines)) => (at, read_plain(alloc, lines)?),
    };
    let at = number(alloc, at)?;
    let mut out = String::new(alloc);
    for (place, line) in (1..u64::MAX).zip(text.split_inclusive('\n')) {
        out.push_str(if place == at { lines.as_str() } else { line })?;
    }
    Ok(out)
}

/// A text that stands in the list itself.
fn read_plain(alloc: Global, value: &str) -> Result<String, Fault> {
    let (lines, end) = match value.strip_suffix('\\') {
        None => (value, "\n"),
        Some(front) => (front, ""),
    };
    let mut out = String::new(alloc);
    let mut between = "";
    for line in lines.split(" / ") {
        out.push_str(between)?;
        push_line(alloc, &mut out, line)?;
        between = "\n";
    }
    out.push_str(end)?;
    Ok(out)
}

/// Appends a line, with what its escapes stand for.
fn push_line(alloc: Global, out: &mut String, line: &str) -> Result<(), Fault> {
    let mut pieces = line.split('\\');
    out.push_str(pieces.next().unwrap_or(""))?;
    for piece in pieces {
        if let Some(rest) = piece.strip_prefix('r') {
            out.push('\r')?;
            out.push_str(rest)?;
        } else if let Some(rest) = piece.strip_prefix('t') {
            out.push('\t')?;
            out.push_str(rest)?;
        } else if let Some((count, rest)) = piece.split_once('x')
            && let [byte] = rest.as_bytes()
        {
            let count = usize::try_from(number(alloc, count)?).unwrap_or(0);
            let bytes = vec![in alloc; *byte; count]?;
            out.push_str(std::str::from_utf8(bytes.as_slice()).unwrap_or(""))?;
        } else {
            return Err(part_fault(alloc, line));
        }
    }
    Ok(())
}
