//! What a command replies.
ghost use Rattle.std.specs.Prelude.{◌≡◌, IfOk};
ghost use Rattle.commands.specs.Replies.{TellsFault, TellsStatus, step_licence};
ghost use Rattle.commands.specs.Told.{CanTell};

use crate::fault::fault_line;
use crate::held::read_status;
use crate::status::{LogRefusal, Status};
use deriv_log::{Entries, Licence, Place};
use exact_field::Left;
use frac128::Frac;
use src_sink::{Bytes, NoMemory};
use std::alloc::Global;

/// A status, the text for the output, and for some commands the text of a log.
#[derive(Debug, Drop)]
pub struct Reply {
    pub status: Status,
    pub text: Bytes,
    pub log: Option<Bytes>,
}

/// The reply that tells a fault by its line.
pub fn fault_reply(alloc: Global, status: Status) -> Result<Reply, NoMemory>
    ensures status { IfOk result (λ r. r.status ≡ status) }
    ensures told { IfOk result TellsFault }
    ensures held { CanTell status }
{
    read_status(&status);
    let text = fault_line(alloc, &status)?;
    let log = None;
    Ok(Reply { status, text, log })
}

/// The reply where a log is refused.
pub fn refused_reply(alloc: Global, why: LogRefusal) -> Result<Reply, NoMemory>
    ensures { IfOk result (TellsStatus (Status.Refused why)) }
{
    fault_reply(alloc, Status::Refused(why))
}

/// The reply where a step of the check of an entry has an exact result that is not held. No entry
/// was made.
pub fn step_reply(alloc: Global, entry: u32, step: u64, left: Left<Frac>) -> Result<Reply, NoMemory>
    ensures { IfOk result (TellsStatus (Status.Left (step_licence entry step left))) }
{
    let licence = Licence {
        place: Place::Step { entry, step },
        left,
        trail: Entries::new(alloc),
    };
    fault_reply(alloc, Status::Left(licence))
}
