//! The fault lines of texts and of their limits.
ghost use Rattle.std.specs.Prelude.{◌≡◌, IfOk};
ghost use Rattle.commands.specs.Text.{file_fault_text, second_fault_text, log_fault_text, wrong_text, too_long_text, columns_text, sizes_text, weights_text, rep_fault_text};

use deriv_log::LogFault;
use log_rules::Rule;
use src_sink::{Bytes, NoMemory};
use std::alloc::Global;
use vlp_reader::FileFault;
use word_lines::LogKind;

/// The fault line of a refused problem.
pub(crate) fn file_fault_line(alloc: Global, fault: FileFault) -> Result<Bytes, NoMemory>
    ensures { IfOk result (λ text. text ≡ file_fault_text fault) }
{
    let line = fault.line;
    let kind = fault.kind.number();
    let name = fault.kind.name();
    let text = format!(in alloc; "fault 3 line {line} kind {kind} {name}\n")?;
    let bytes = bytes_of(alloc, text.as_str())?;
    Ok(bytes)
}

/// The fault line of a log's text.
pub(crate) fn log_fault_line(alloc: Global, fault: LogFault) -> Result<Bytes, NoMemory>
    ensures { IfOk result (λ text. text ≡ log_fault_text fault) }
{
    let line = fault.line;
    let kind = fault.kind.number();
    let name = fault.kind.name();
    let text = format!(in alloc; "fault 9 line {line} kind {kind} {name}\n")?;
    let bytes = bytes_of(alloc, text.as_str())?;
    Ok(bytes)
}

/// The fault line of a rule that an entry fails.
pub(crate) fn wrong_line(alloc: Global, entry: u32, rule: Rule) -> Result<Bytes, NoMemory>
    ensures { IfOk result (λ text. text ≡ wrong_text entry rule) }
{
    let number = rule.number();
    let name = rule.name();
    let text = format!(in alloc; "fault 9 entry {entry} rule {number} {name}\n")?;
    let bytes = bytes_of(alloc, text.as_str())?;
    Ok(bytes)
}

/// The fault line of a source with more bytes than the limit: that of the log, or of the problem,
/// and the bytes that were taken.
pub(crate) fn too_long_line(alloc: Global, log: bool, read: u64) -> Result<Bytes, NoMemory>
    ensures { IfOk result (λ text. text ≡ too_long_text log read) }
{
    let source = if log { "log" } else { "problem" };
    let text = format!(in alloc; "fault 10 {source} {read}\n")?;
    let bytes = bytes_of(alloc, text.as_str())?;
    Ok(bytes)
}

/// The fault line of a refused second problem.
pub(crate) fn second_fault_line(alloc: Global, fault: FileFault) -> Result<Bytes, NoMemory>
    ensures { IfOk result (λ text. text ≡ second_fault_text fault) }
{
    let line = fault.line;
    let kind = fault.kind.number();
    let name = fault.kind.name();
    let text = format!(in alloc; "fault 13 line {line} kind {kind} {name}\n")?;
    let bytes = bytes_of(alloc, text.as_str())?;
    Ok(bytes)
}

/// The fault line of more columns than there are.
pub(crate) fn columns_line(alloc: Global, asked: u32, cols: u32) -> Result<Bytes, NoMemory>
    ensures { IfOk result (λ text. text ≡ columns_text asked cols) }
{
    let text = format!(in alloc; "fault 12 {asked} {cols}\n")?;
    let bytes = bytes_of(alloc, text.as_str())?;
    Ok(bytes)
}

/// The fault line of numbers of columns that do not go together.
pub(crate) fn sizes_line(alloc: Global, first: u32, second: u32) -> Result<Bytes, NoMemory>
    ensures { IfOk result (λ text. text ≡ sizes_text first second) }
{
    let text = format!(in alloc; "fault 15 {first} {second}\n")?;
    let bytes = bytes_of(alloc, text.as_str())?;
    Ok(bytes)
}

/// The fault line of another number of weights than of objectives.
pub(crate) fn weights_line(alloc: Global, given: u32, objs: u32) -> Result<Bytes, NoMemory>
    ensures { IfOk result (λ text. text ≡ weights_text given objs) }
{
    let text = format!(in alloc; "fault 18 {given} {objs}\n")?;
    let bytes = bytes_of(alloc, text.as_str())?;
    Ok(bytes)
}

/// The fault line of a refused representation.
pub(crate) fn rep_fault_line(alloc: Global, line: u32, kind: LogKind) -> Result<Bytes, NoMemory>
    ensures { IfOk result (λ text. text ≡ rep_fault_text line kind) }
{
    let number = kind.number();
    let name = kind.name();
    let text = format!(in alloc; "fault 16 line {line} kind {number} {name}\n")?;
    let bytes = bytes_of(alloc, text.as_str())?;
    Ok(bytes)
}

fn bytes_of(alloc: Global, text: &str) -> Result<Bytes, NoMemory>
    ensures { IfOk result (λ bytes. bytes ≡ text.now) }
{
    let mut bytes = Bytes::new(alloc);
    bytes.append(text.as_bytes())?;
    Ok(bytes)
}
