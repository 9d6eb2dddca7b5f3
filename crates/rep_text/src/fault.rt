//! Why the text of a representation is refused.
ghost use Rattle.std.specs.Prelude.{◌≡◌};
ghost use Rattle.rep_text.specs.RepReading.{rep_end_at};

use src_sink::NoMemory as WantOfMemory;
use thiserror::Error;
use word_lines::{LogKind, Stop};

/// Why a text gave no representation: its first fault and the fault's line, from 1, or want of
/// memory.
#[derive(Clone, Copy, Debug, PartialEq, Eq, Error)]
pub enum RepEnd {
    #[error("line {line}: {kind:?}")]
    Fault { line: u32, kind: LogKind },
    #[error("out of memory")]
    NoMemory,
}

impl From<WantOfMemory> for RepEnd {
    ghost use Rattle.std.specs.Prelude.{◌≡◌};
    ghost use Rattle.rep_text.specs.declared.fault.RepEnd.TheVariants as rep_end;

    ghost from_gives = { λ _ e. e ≡ rep_end.NoMemory };

    fn from(_e: WantOfMemory) -> RepEnd {
        RepEnd::NoMemory
    }
}

/// A refusal at the line of this number.
pub(crate) fn end_at(stop: Stop, number: u32) -> RepEnd
    ensures { result ≡ rep_end_at number stop }
{
    match stop {
        Stop::Fault(kind) => RepEnd::Fault { line: number, kind },
        Stop::NoMemory => RepEnd::NoMemory,
    }
}
