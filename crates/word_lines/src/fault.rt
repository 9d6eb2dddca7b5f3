//! Why the text of a log is refused.
use src_sink::NoMemory as WantOfMemory;
use thiserror::Error;

/// What is wrong with the text of a log. The numbers are those of the fault lines.
#[derive(Clone, Copy, Debug, PartialEq, Eq)]
pub enum LogKind {
    /// A line without the form of an entry.
    BadLine = 1,
    /// A word that is no canonical number.
    BadNumber = 2,
    /// A number that no fraction of 120-bit whole numbers holds.
    NumberWide = 3,
    /// A natural number above its end, or a place that does not rise.
    OutOfRange = 4,
    /// No `end` line.
    NoEnd = 5,
}

impl LogKind {
    ghost use Rattle.std.specs.Prelude.{◌≡◌};
    ghost use Rattle.word_lines.specs.Names.{kind_number, kind_name};

    /// Its number in fault lines.
    pub fn number(self) -> u8
        ensures { result ≡ kind_number self }
    {
        self as u8
    }

    /// Its name in fault lines.
    pub fn name(self) -> &'static str
        ensures { result.now ≡ kind_name self }
    {
        match self {
            LogKind::BadLine => "BadLine",
            LogKind::BadNumber => "BadNumber",
            LogKind::NumberWide => "NumberWide",
            LogKind::OutOfRange => "OutOfRange",
            LogKind::NoEnd => "NoEnd",
        }
    }
}

/// The first fault of a log's text, and its line, from 1.
#[derive(Clone, Copy, Debug, PartialEq, Eq)]
pub struct LogFault {
    pub line: u32,
    pub kind: LogKind,
}

/// Why a text gave no entries.
#[derive(Clone, Copy, Debug, PartialEq, Eq, Error)]
pub enum LogEnd {
    #[error("line {line}: {kind:?}", line = .0.line, kind = .0.kind)]
    Fault(LogFault),
    #[error("out of memory")]
    NoMemory,
}

/// Why a line gave no entry, before its number is known.
#[derive(Clone, Copy, Debug, PartialEq, Eq)]
pub enum Stop {
    Fault(LogKind),
    NoMemory,
}

impl Stop {
    ghost use Rattle.std.specs.Prelude.{◌≡◌};
    ghost use Rattle.word_lines.specs.Taking.{end_at};

    /// The same at the line of this number.
    pub fn at(self, number: u32) -> LogEnd
        ensures { result ≡ end_at number self }
    {
        match self {
            Stop::Fault(kind) => LogEnd::Fault(LogFault { line: number, kind }),
            Stop::NoMemory => LogEnd::NoMemory,
        }
    }
}

impl From<LogKind> for Stop {
    ghost use Rattle.std.specs.Prelude.{◌≡◌};
    ghost use Rattle.word_lines.specs.declared.fault.Stop.TheVariants as stop;

    ghost from_gives = { λ kind s. s ≡ stop.Fault kind };

    fn from(kind: LogKind) -> Stop {
        Stop::Fault(kind)
    }
}

impl From<WantOfMemory> for Stop {
    ghost use Rattle.std.specs.Prelude.{◌≡◌};
    ghost use Rattle.word_lines.specs.declared.fault.Stop.TheVariants as stop;

    ghost from_gives = { λ _ s. s ≡ stop.NoMemory };

    fn from(_e: WantOfMemory) -> Stop {
        Stop::NoMemory
    }
}

impl From<WantOfMemory> for LogEnd {
    ghost use Rattle.std.specs.Prelude.{◌≡◌};
    ghost use Rattle.word_lines.specs.declared.fault.LogEnd.TheVariants as log_end;

    ghost from_gives = { λ _ e. e ≡ log_end.NoMemory };

    fn from(_e: WantOfMemory) -> LogEnd {
        LogEnd::NoMemory
    }
}
