//! Why a file is refused.
ghost use Rattle.std.specs.Prelude.{◌≡◌};
ghost use Rattle.vlp_reader.specs.declared.fault.LineEnd.TheVariants as line;

use src_sink::NoMemory as WantOfMemory;
use std::alloc::{AllocError, AllocFailed};
use thiserror::Error;

/// What is wrong with a line, or with the whole. The numbers are those of the fault lines.
#[derive(Clone, Copy, Debug, PartialEq, Eq)]
pub enum FileKind {
    /// No `p` line stands before this line, or there is none at all.
    NoProblem = 1,
    /// A line of unknown kind, or with words that its kind does not have.
    BadLine = 2,
    /// A word that should be a number and is none.
    BadNumber = 3,
    /// A number that no fraction of 120-bit whole numbers holds.
    NumberWide = 4,
    /// A number of more than 36 significant digits.
    Digits = 5,
    /// A place outside the sizes of the `p` line, or a size of 0.
    OutOfRange = 6,
    /// A second `p` line, or a second line for one place.
    Twice = 7,
    /// Another number of lines than the `p` line says.
    CountWrong = 8,
    /// A size past the limits of this reader.
    LimitPassed = 9,
    /// A line of more than 4,096 bytes.
    LineLong = 11,
}

impl FileKind {
    ghost use Rattle.vlp_reader.specs.Faults.{kind_number, kind_name};

    /// Its number in fault lines.
    pub fn number(self) -> u8
        ensures { result ≡ kind_number self }
    {
        self as u8
    }

    /// Its name in fault lines.
    pub fn name(self) -> &'static str
        ensures { result.now ≡ kind_name self }
    {
        match self {
            FileKind::NoProblem => "NoProblem",
            FileKind::BadLine => "BadLine",
            FileKind::BadNumber => "BadNumber",
            FileKind::NumberWide => "NumberWide",
            FileKind::Digits => "Digits",
            FileKind::OutOfRange => "OutOfRange",
            FileKind::Twice => "Twice",
            FileKind::CountWrong => "CountWrong",
            FileKind::LimitPassed => "LimitPassed",
            FileKind::LineLong => "LineLong",
        }
    }
}

/// The first fault of a file: its line, from 1, and what is wrong there.
#[derive(Clone, Copy, Debug, PartialEq, Eq)]
pub struct FileFault {
    pub line: u32,
    pub kind: FileKind,
}

/// Why `read_vlp` gave no problem.
#[derive(Clone, Copy, Debug, PartialEq, Eq, Error)]
pub enum VlpEnd {
    #[error("line {line}: {kind:?}", line = .0.line, kind = .0.kind)]
    Fault(FileFault),
    #[error("out of memory")]
    NoMemory,
}

/// Why a line was not taken.
#[derive(Clone, Copy, Debug, PartialEq, Eq)]
pub(crate) enum LineEnd {
    Kind(FileKind),
    NoMemory,
}

impl From<FileKind> for LineEnd {
    ghost from_gives = { λ kind e. e ≡ line.Kind kind };

    fn from(kind: FileKind) -> LineEnd {
        LineEnd::Kind(kind)
    }
}

impl From<WantOfMemory> for LineEnd {
    ghost from_gives = { λ _ e. e ≡ line.NoMemory };

    fn from(_e: WantOfMemory) -> LineEnd {
        LineEnd::NoMemory
    }
}

impl From<AllocError> for LineEnd {
    ghost from_gives = { λ _ e. e ≡ line.NoMemory };

    fn from(_e: AllocError) -> LineEnd {
        LineEnd::NoMemory
    }
}

impl<T: Drop> From<AllocFailed<T>> for LineEnd {
    ghost from_gives = { λ _ e. e ≡ line.NoMemory };

    fn from(_e: AllocFailed<T>) -> LineEnd {
        LineEnd::NoMemory
    }
}

impl VlpEnd {
    ghost use Rattle.std.specs.Prelude.{◌≡◌};
    ghost use Rattle.vlp_reader.specs.Ends.{end_at};

    /// The end at a line of this number.
    pub(crate) fn at(line: u32, end: LineEnd) -> VlpEnd
        ensures { result ≡ end_at line end }
    {
        match end {
            LineEnd::Kind(kind) => VlpEnd::Fault(FileFault { line, kind }),
            LineEnd::NoMemory => VlpEnd::NoMemory,
        }
    }
}
