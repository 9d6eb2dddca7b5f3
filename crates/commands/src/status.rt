//! How a run ends.
use cone_rules::ConeFault;
use deriv_log::{Licence, LogFault};
use exact_field::Left;
use frac128::{Frac, Sparse};
use log_rules::Rule;
use src_sink::NoMemory;
use vlp_reader::FileFault;
use word_lines::LogKind;

/// Why a log is refused.
#[derive(Clone, Copy, Debug, PartialEq, Eq)]
pub enum LogRefusal {
    /// The text is no log that is read.
    Text(LogFault),
    /// The first rule that fails, and the number of its entry, from 1.
    Wrong { entry: u32, rule: Rule },
}

/// How a run ends. The numbers of the codes are those of `Status::code`.
#[derive(Debug, Drop)]
pub enum Status {
    /// The answer was reported.
    Done,
    /// The words have none of the shapes of a command.
    Words,
    /// The problem's text is refused.
    FileFault(FileFault),
    /// The ordering cone or the duality vector has this first fault.
    ConeFault(ConeFault),
    /// An operation has an exact result that is not held. Of `check` it is a step of an entry's
    /// check, at `Place::Step`, and no entry was made.
    Left(Licence),
    /// Memory was wanting.
    NoMemory,
    /// The source of the problem failed, or that of the log or second problem.
    ReadFault { log: bool },
    /// The output failed, or that of the log, after a front of the text was written.
    WriteFault { log: bool, sent: u64 },
    /// The log is refused.
    Refused(LogRefusal),
    /// More bytes were read than the limit, and so many: of the problem, or of the log or second
    /// problem.
    TooLong { log: bool, read: u64 },
    /// More columns are asked for than the problem has.
    Columns { asked: u32, cols: u32 },
    /// The second problem's text is refused.
    SecondFile(FileFault),
    /// The first or the second part of a join has no feasible vector, which these multipliers of
    /// its sides show (Farkas).
    EmptyPart { second: bool, u: Sparse },
    /// There are more than 19 columns, or the two problems differ in their number; of an image,
    /// more than 19 objectives, told twice.
    Sizes { first: u32, second: u32 },
    /// The representation's text is refused: its first fault, or that of the first line of a text
    /// that reads but is of the other kind.
    RepFault { line: u32, kind: LogKind },
    /// A product of the weights with a line, a direction or a point has an operation whose exact
    /// result is not held; these are numbered from 1 through the three lists.
    WeighLeft { item: u64, left: Left<Frac> },
    /// There is another number of weights than of objectives.
    Weights { given: u32, objs: u32 },
}

impl Status {
    ghost use Rattle.std.specs.Prelude.{◌≡◌};
    ghost use Rattle.commands.specs.Codes.{code_of};

    /// The code with which the program ends.
    pub fn code(&self) -> u8
        ensures { result ≡ code_of self.now }
    {
        match self {
            Status::Done => 0,
            Status::Words => 2,
            Status::FileFault(_) => 3,
            Status::ConeFault(_) => 4,
            Status::Left(_) => 5,
            Status::NoMemory => 6,
            Status::ReadFault { .. } => 7,
            Status::WriteFault { .. } => 8,
            Status::Refused(_) => 9,
            Status::TooLong { .. } => 10,
            Status::Columns { .. } => 12,
            Status::SecondFile(_) => 13,
            Status::EmptyPart { .. } => 14,
            Status::Sizes { .. } => 15,
            Status::RepFault { .. } => 16,
            Status::WeighLeft { .. } => 17,
            Status::Weights { .. } => 18,
        }
    }
}

impl From<NoMemory> for Status {
    ghost use Rattle.std.specs.Prelude.{◌≡◌};
    ghost use Rattle.commands.specs.declared.status.Status.TheVariants.{NoMemory};

    ghost from_gives = { λ _ s. s ≡ NoMemory };

    fn from(_e: NoMemory) -> Status {
        Status::NoMemory
    }
}
