//! The top call.
ghost use Rattle.std.specs.Prelude.{◌≡◌, ◌≤◌, ◌↔◌, None, IfSome, map, string_bytes};
ghost use Rattle.commands.specs.Paths.{files_of, log_in_path, log_out_path, problem_path};
ghost use Rattle.commands.specs.Seen.{files_seen, shape_seen};
ghost use Rattle.commands.specs.Shapes.{shape_of};
ghost use Rattle.bensolve_main.specs.Accepted.{Accepted};
ghost use Rattle.bensolve_main.specs.Answerable.{Completes, Honest};
ghost use Rattle.bensolve_main.specs.Deliver.{Delivers, Sends};
ghost use Rattle.bensolve_main.specs.Outcome.{Outcome};
ghost use Rattle.bensolve_main.specs.Stages.{ShapeFits};
ghost use Rattle.bensolve_main.specs.World.{Channel, NoCountFell, channel, world};

use crate::prepare::prepare;
use commands::{Command, Reply, Status, command_in};
use src_sink::{Sink, Source, WriteFault, write_all};
use std::alloc::Global;

/// Runs the command that `words` give, without the program's name.
///
/// - `check FILE LOG` reads the problem, then the log, checks the log, and reports the answer that
///   it proves.
/// - `relog FILE LOG` reads both as `check` does, and writes the log of version 2 that says the
///   same. It keeps all entries, and the text that it writes.
/// - `solve FILE` reads the problem, solves it, and reports its answer; `solve FILE LOG` then
///   writes a log of version 2 that proves the answer.
/// - `dual FILE` and `dual FILE LOG` do the same by the facets, and the log has a cut for each
///   facet alone.
/// - `sample N` makes the sample file of a number from 1 to 1000, solves it, and tells in five
///   lines how many points, directions and facets its image has.
/// - `project FILE K` describes the projection of the feasible set on its first K columns, from 1
///   to 19 of them; `project FILE K LOG` then writes the log of the associated problem.
/// - `associate FILE K` writes that problem, as a file gives it.
/// - `meet FILE FILE2` describes what is feasible for both problems, `sum FILE FILE2` the sums of a
///   feasible vector of each, and `join FILE FILE2` the closed convex hull of both feasible sets.
/// - `map FILE` describes the image of the feasible set under the objectives.
/// - `weights FILE` solves the problem, and tells for each point of its image the weights for which
///   it is least; `weigh FILE W` tells the points that are least for the weights that W writes.
/// - `vertices FILE` reads inequalities and equations, and writes the points, directions and lines
///   of the same set; `facets FILE` turns these into inequalities and equations. With LOG each then
///   writes a log of the conversion; `reconv FILE LOG` checks that log, and writes what it gives.
///
/// The text goes to `out`; where there is no answer, it is the one fault line of the status. The
/// log of `solve`, `dual`, `project`, `vertices` or `facets` goes to `log_out`, where there is an
/// answer. Everything is read, and every text made, before anything is written. A problem or
/// representation is read from `problem`, a log or a second problem from `log_in`.
pub fn run<S: Source, L: Source, T: Sink, K: Sink>(
    alloc: Global,
    words: &[String],
    problem: &mut S,
    log_in: &mut L,
    out: &mut T,
    log_out: &mut K,
) -> Status
    // Words without a shape are told as such.
    ensures words { (result ≡ Status.Words) ↔ (shape_of (map string_bytes words.now) ≡ None) }

    // What the words do not name is not called.
    ensures problem { problem_path (files_of (shape_of (map string_bytes words.now))) ≡ None →
        problem.new ≡ problem.old }
    ensures log_in { log_in_path (files_of (shape_of (map string_bytes words.now))) ≡ None →
        log_in.new ≡ log_in.old }
    ensures out { shape_of (map string_bytes words.now) ≡ None → out.new ≡ out.old }
    ensures log_out { log_out_path (files_of (shape_of (map string_bytes words.now))) ≡ None →
        log_out.new ≡ log_out.old }

    // What the status says of the bytes that were read and written.
    ensures outcome { IfSome (shape_of (map string_bytes words.now)) (λ shape. Outcome shape result
        (world
        (channel (S.left problem.old) (S.faults problem.old))
        (channel (L.left log_in.old) (L.faults log_in.old))
        (channel (T.held out.old) (T.faults out.old))
        (channel (K.held log_out.old) (K.faults log_out.old)))
        (world
        (channel (S.left problem.new) (S.faults problem.new))
        (channel (L.left log_in.new) (L.faults log_in.new))
        (channel (T.held out.new) (T.faults out.new))
        (channel (K.held log_out.new) (K.faults log_out.new)))) }

    // Where the outside is honest there is an answer, unless memory is wanting.
    ensures complete { IfSome (shape_of (map string_bytes words.now)) (λ shape. Honest shape
        (world
        (channel (S.left problem.old) (S.faults problem.old))
        (channel (L.left log_in.old) (L.faults log_in.old))
        (channel (T.held out.old) (T.faults out.old))
        (channel (K.held log_out.old) (K.faults log_out.old)))
        (world
        (channel (S.left problem.new) (S.faults problem.new))
        (channel (L.left log_in.new) (L.faults log_in.new))
        (channel (T.held out.new) (T.faults out.new))
        (channel (K.held log_out.new) (K.faults log_out.new)))
        → Completes result) }

    // With the same first text, `check` accepts the log that `solve FILE LOG` or `dual FILE LOG`
    // writes, and reports the same, and `reconv` that of `vertices FILE LOG` or `facets FILE LOG`.
    ensures accepted { IfSome (shape_of (map string_bytes words.now)) (λ shape.
        Accepted shape result
        (world
        (channel (S.left problem.old) (S.faults problem.old))
        (channel (L.left log_in.old) (L.faults log_in.old))
        (channel (T.held out.old) (T.faults out.old))
        (channel (K.held log_out.old) (K.faults log_out.old)))
        (world
        (channel (S.left problem.new) (S.faults problem.new))
        (channel (L.left log_in.new) (L.faults log_in.new))
        (channel (T.held out.new) (T.faults out.new))
        (channel (K.held log_out.new) (K.faults log_out.new)))) }

    // No count of faults falls.
    ensures counts { NoCountFell
        (world
        (channel (S.left problem.old) (S.faults problem.old))
        (channel (L.left log_in.old) (L.faults log_in.old))
        (channel (T.held out.old) (T.faults out.old))
        (channel (K.held log_out.old) (K.faults log_out.old)))
        (world
        (channel (S.left problem.new) (S.faults problem.new))
        (channel (L.left log_in.new) (L.faults log_in.new))
        (channel (T.held out.new) (T.faults out.new))
        (channel (K.held log_out.new) (K.faults log_out.new))) }
{
    match command_in(words) {
        Some(command) => run_command(alloc, command, problem, log_in, out, log_out),
        None => Status::Words,
    }
}

/// Makes the reply of a command, and writes it where there is one.
fn run_command<S: Source, L: Source, T: Sink, K: Sink>(
    alloc: Global,
    command: Command<'_>,
    problem: &mut S,
    log_in: &mut L,
    out: &mut T,
    log_out: &mut K,
) -> Status
    requires { ShapeFits (shape_seen command) }
    ensures problem { problem_path (files_seen command.entry.files) ≡ None →
        problem.new ≡ problem.old }
    ensures log_in { log_in_path (files_seen command.entry.files) ≡ None →
        log_in.new ≡ log_in.old }
    ensures log_out { log_out_path (files_seen command.entry.files) ≡ None →
        log_out.new ≡ log_out.old }
    ensures outcome { Outcome (shape_seen command.entry) result
        (world
        (channel (S.left problem.old) (S.faults problem.old))
        (channel (L.left log_in.old) (L.faults log_in.old))
        (channel (T.held out.old) (T.faults out.old))
        (channel (K.held log_out.old) (K.faults log_out.old)))
        (world
        (channel (S.left problem.new) (S.faults problem.new))
        (channel (L.left log_in.new) (L.faults log_in.new))
        (channel (T.held out.new) (T.faults out.new))
        (channel (K.held log_out.new) (K.faults log_out.new))) }
    ensures counts { NoCountFell
        (world
        (channel (S.left problem.old) (S.faults problem.old))
        (channel (L.left log_in.old) (L.faults log_in.old))
        (channel (T.held out.old) (T.faults out.old))
        (channel (K.held log_out.old) (K.faults log_out.old)))
        (world
        (channel (S.left problem.new) (S.faults problem.new))
        (channel (L.left log_in.new) (L.faults log_in.new))
        (channel (T.held out.new) (T.faults out.new))
        (channel (K.held log_out.new) (K.faults log_out.new))) }
{
    match prepare(alloc, command, problem, log_in) {
        Ok(reply) => tell(out, log_out, reply),
        Err(status) => status,
    }
}

/// Writes the text of a reply and then its log, if it has one, and answers its status, or that an
/// output failed.
fn tell<T: Sink, K: Sink>(out: &mut T, log_out: &mut K, reply: Reply) -> Status
    ensures counts { (T.faults out.old ≤ T.faults out.new)
        × (K.faults log_out.old ≤ K.faults log_out.new) }
    ensures quiet { reply.log ≡ None → log_out.new ≡ log_out.old }
    ensures sent { (problem log_in problem' log_in' : Channel) → Delivers reply result
        (world
        problem log_in
        (channel (T.held out.old) (T.faults out.old))
        (channel (K.held log_out.old) (K.faults log_out.old)))
        (world
        problem' log_in'
        (channel (T.held out.new) (T.faults out.new))
        (channel (K.held log_out.new) (K.faults log_out.new))) }
{
    let Reply { status, text, log } = reply;
    match log {
        None => send(out, false, status, text.as_slice()),
        Some(log) => match write_all(out, text.as_slice()) {
            Ok(()) => send(log_out, true, status, log.as_slice()),
            Err(fault) => write_fault(false, fault),
        },
    }
}

/// Writes a text to an output (that of the log, or the other one), and answers the status, or that
/// the output failed.
fn send<T: Sink>(sink: &mut T, log: bool, status: Status, text: &[u8]) -> Status
    ensures counts { T.faults sink.old ≤ T.faults sink.new }
    ensures sent { Sends log text.now status result
        (channel (T.held sink.old) (T.faults sink.old))
        (channel (T.held sink.new) (T.faults sink.new)) }
{
    match write_all(sink, text) {
        Ok(()) => status,
        Err(fault) => write_fault(log, fault),
    }
}

/// The status where an output (that of the log, or the other one) failed.
fn write_fault(log: bool, fault: WriteFault) -> Status
    ensures { result ≡ Status.WriteFault log fault.sent }
{
    Status::WriteFault {
        log,
        sent: fault.sent,
    }
}
