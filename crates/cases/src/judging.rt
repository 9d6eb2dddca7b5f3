//! What of a run its case does not want.
use crate::Fault;
use crate::case::{Case, words_of};
use crate::running::{Seen, Trial, print_problem};
use commands::Status;
use src_sink::{Bytes, MemSink};
use std::alloc::Global;

/// What of a run its case does not want, told in words; none where it wants all of it. Where calls
/// fail, `whole` is the run in which none does.
pub(crate) fn find_difference(
    alloc: Global,
    case: &Case,
    trial: Trial<'_>,
    whole: Option<&Seen>,
) -> Result<Option<String>, Fault> {
    if trial
        .words
        .first()
        .is_some_and(|word| word.as_str() == "print")
    {
        return print_finding(alloc, case, trial);
    }
    let seen = trial.run_words(alloc)?;
    match difference_of(alloc, case, trial, whole, &seen)? {
        None => Ok(None),
        Some(what) => {
            let (code, text) = (seen.status.code(), text_in(&seen.out));
            Ok(Some(format!(in alloc; "{what}: status {code}, {text:?}")?))
        }
    }
}

/// What of a run is not as its case wants.
fn difference_of(
    alloc: Global,
    case: &Case,
    trial: Trial<'_>,
    whole: Option<&Seen>,
    seen: &Seen,
) -> Result<Option<&'static str>, Fault> {
    let found = difference(case, seen).or_else(|| whole.and_then(|all| front_difference(
        seen, all,
    )));
    match (found, &seen.status) {
        (None, Status::Done) => command_difference(alloc, trial, seen),
        _ => Ok(found),
    }
}

/// What differs in other runs over what a command wrote.
fn command_difference(
    alloc: Global,
    trial: Trial<'_>,
    seen: &Seen,
) -> Result<Option<&'static str>, Fault> {
    match trial.words {
        [command, _, _] => log_difference(alloc, command.as_str(), trial, seen),
        [command, _, columns, _] if command.as_str() == "project" => {
            projected_difference(alloc, trial, columns.as_str(), seen)
        }
        _ => Ok(None),
    }
}

/// The same of a command of three words.
fn log_difference(
    alloc: Global,
    command: &str,
    trial: Trial<'_>,
    seen: &Seen,
) -> Result<Option<&'static str>, Fault> {
    match command {
        "solve" => solved_difference(alloc, trial, "solve file", seen),
        "dual" => dual_difference(alloc, trial, seen),
        "relog" => relogged_difference(alloc, trial, seen),
        _ => Ok(None),
    }
}

/// The name of the first claim that does not hold.
fn first_wrong(claims: &[(bool, &'static str)]) -> Option<&'static str> {
    claims.iter().find(|claim| !claim.0).map(|claim| claim.1)
}

/// What of a run is not as its line says, or not of the form that its status has.
fn difference(case: &Case, seen: &Seen) -> Option<&'static str> {
    let code = u64::from(seen.status.code());
    let (out, log_out) = (text_in(&seen.out), text_in(&seen.log_out));
    let is_first = case.statuses.first() == Some(&code);
    let is_sent = match &seen.status {
        Status::WriteFault { sent, .. } => case.sents.is_empty() || case.sents.contains(sent),
        _ => true,
    };
    first_wrong(&[
        (case.statuses.contains(&code), "the status"),
        (has_its_form(seen), "what comes with the status"),
        (
            !is_first || fits_one(case.outs.as_slice(), out),
            "the output",
        ),
        (
            !is_first || fits_one(case.log_outs.as_slice(), log_out),
            "the log",
        ),
        (is_sent, "the bytes that were sent"),
    ])
}

/// Whether what was written has the form that the status says.
fn has_its_form(seen: &Seen) -> bool {
    let (out, log_out) = (text_in(&seen.out), text_in(&seen.log_out));
    match &seen.status {
        Status::Done => true,
        Status::Words | Status::NoMemory | Status::ReadFault { .. } => {
            out.is_empty() && log_out.is_empty()
        }
        Status::WriteFault { log: false, sent } => {
            log_out.is_empty() && usize::try_from(*sent) == Ok(out.len())
        }
        Status::WriteFault { log: true, sent } => usize::try_from(*sent) == Ok(log_out.len()),
        _ => {
            let code = out
                .strip_prefix("fault ")
                .and_then(|rest| rest.split_once(' '));
            let told = code.and_then(|(word, _)| word.parse().ok());
            log_out.is_empty() && told == Some(seen.status.code()) && out.ends_with('\n')
        }
    }
}

/// What differs where what was written is no front of what is written without a fault, or not the
/// whole though no call failed before its end.
fn front_difference(seen: &Seen, whole: &Seen) -> Option<&'static str> {
    let (out, log_out) = (seen.out.contents(), seen.log_out.contents());
    let (all, all_log) = (whole.out.contents(), whole.log_out.contents());
    let (may_lack, may_lack_log) = match &seen.status {
        Status::ReadFault { .. } | Status::WriteFault { log: false, .. } => (true, true),
        Status::WriteFault { log: true, .. } => (false, true),
        _ => (false, false),
    };
    first_wrong(&[
        (
            all.starts_with(out) && all_log.starts_with(log_out),
            "a front of the text",
        ),
        (may_lack || out == all, "the whole output"),
        (may_lack_log || log_out == all_log, "the whole log"),
    ])
}

/// A run of these words without a fault of the outside.
fn calm_run<'a>(
    alloc: Global,
    words: &str,
    file: &'a [u8],
    log: &'a [u8],
    most: u64,
) -> Result<Seen, Fault> {
    let words = words_of(alloc, words)?;
    let trial = Trial {
        words: words.as_slice(),
        file,
        log,
        most,
        fails: &[],
    };
    Ok(trial.run_words(alloc)?)
}

/// What differs where `check` reads the log that was written, or where the words name no log.
fn solved_difference(
    alloc: Global,
    trial: Trial<'_>,
    without: &str,
    seen: &Seen,
) -> Result<Option<&'static str>, Fault> {
    let (file, log, most) = (trial.file, seen.log_out.contents(), trial.most);
    let checked = calm_run(alloc, "check file log", file, log, most)?;
    let unlogged = calm_run(alloc, without, file, &[], most)?;
    Ok(first_wrong(&[
        (is_same_report(&checked, seen), "what the log proves"),
        (is_same_report(&unlogged, seen), "the output without a log"),
    ]))
}

/// The same of a log over the facets; and what `solve` tells otherwise, where it has an answer.
fn dual_difference(
    alloc: Global,
    trial: Trial<'_>,
    seen: &Seen,
) -> Result<Option<&'static str>, Fault> {
    let solved = calm_run(alloc, "solve file", trial.file, &[], trial.most)?;
    let is_solved = matches!(&solved.status, Status::Done);
    let found = first_wrong(&[
        (
            !is_solved || image_part(&solved.out) == image_part(&seen.out),
            "the image that `solve` tells",
        ),
        (
            has_facets_alone(text_in(&seen.log_out)),
            "a cut that is no facet",
        ),
    ]);
    match found {
        None => solved_difference(alloc, trial, "dual file", seen),
        Some(_) => Ok(found),
    }
}

/// What a report tells before its witnesses.
fn image_part(sink: &MemSink) -> &str {
    match text_in(sink).split_once("\nwitnesses\n") {
        None => "no report",
        Some((front, _)) => front,
    }
}

/// Whether a log has as many cuts as facets that it names.
fn has_facets_alone(log: &str) -> bool {
    let mut cuts = 0_u64;
    let mut facets = 0_u64;
    for line in log.lines() {
        if line.starts_with("cut") {
            cuts = cuts.saturating_add(1);
        } else if line.starts_with("facet ") {
            facets = facets.saturating_add(1);
        }
    }
    cuts == facets
}

/// What differs where `check` reads the log that was written and that which was read, or where it
/// is written once more.
fn relogged_difference(
    alloc: Global,
    trial: Trial<'_>,
    seen: &Seen,
) -> Result<Option<&'static str>, Fault> {
    let (file, log, most) = (trial.file, seen.out.contents(), trial.most);
    let before = calm_run(alloc, "check file log", file, trial.log, most)?;
    let checked = calm_run(alloc, "check file log", file, log, most)?;
    let again = calm_run(alloc, "relog file log", file, log, most)?;
    Ok(first_wrong(&[
        (is_same_report(&checked, &before), "what the new log proves"),
        (is_same_report(&again, seen), "the log of the new log"),
    ]))
}

/// What differs where `check` reads the log that was written beside the text of `associate`, or
/// where no log is named.
fn projected_difference(
    alloc: Global,
    trial: Trial<'_>,
    columns: &str,
    seen: &Seen,
) -> Result<Option<&'static str>, Fault> {
    let (file, log, most) = (trial.file, seen.log_out.contents(), trial.most);
    let associate = format!(in alloc; "associate file {columns}")?;
    let project = format!(in alloc; "project file {columns}")?;
    let associated = calm_run(alloc, associate.as_str(), file, &[], most)?;
    let made = associated.out.contents();
    let checked = calm_run(alloc, "check file log", made, log, most)?;
    let unlogged = calm_run(alloc, project.as_str(), file, &[], most)?;
    let is_accepted = matches!(&checked.status, Status::Done);
    Ok(first_wrong(&[
        (is_accepted, "what the log proves of the associated problem"),
        (is_same_report(&unlogged, seen), "the output without a log"),
    ]))
}

fn is_same_report(seen: &Seen, other: &Seen) -> bool {
    matches!(&seen.status, Status::Done) && seen.out.contents() == other.out.contents()
}

/// What a sink holds, as text.
fn text_in(sink: &MemSink) -> &str {
    std::str::from_utf8(sink.contents()).unwrap_or("no text")
}

/// Whether a text has one of these forms, or none is given.
fn fits_one(forms: &[String], text: &str) -> bool {
    forms.is_empty() || forms.iter().any(|form| fits(form.as_str(), text))
}

/// Whether a text has a form, in which `*` stands for any bytes.
fn fits(form: &str, text: &str) -> bool {
    let Some((fronts, end)) = form.rsplit_once('*') else {
        return form == text;
    };
    let mut pieces = fronts.split('*');
    let Some(mut rest) = text.strip_prefix(pieces.next().unwrap_or("")) else {
        return false;
    };
    for piece in pieces {
        match rest.split_once(piece) {
            None => return false,
            Some((_, after)) => rest = after,
        }
    }
    rest.ends_with(end)
}

/// What of a printed text is not as its case wants.
fn print_finding(alloc: Global, case: &Case, trial: Trial<'_>) -> Result<Option<String>, Fault> {
    let Some(printed) = trial.print(alloc) else {
        return Ok(Some(String::from_str(alloc, "it is refused")?));
    };
    let text = std::str::from_utf8(printed.as_slice()).unwrap_or("no text");
    let again = print_problem(alloc, printed.as_slice());
    let is_log = trial
        .words
        .get(1)
        .is_some_and(|word| word.as_str() == "log");
    let found = first_wrong(&[
        (fits_one(case.outs.as_slice(), text), "the text"),
        (
            is_log || again.as_ref().map(Bytes::as_slice) == Some(printed.as_slice()),
            "what is printed of it again",
        ),
    ]);
    match found {
        None => Ok(None),
        Some(what) => Ok(Some(format!(in alloc; "{what}: {text:?}")?)),
    }
}
