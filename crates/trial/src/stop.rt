// Why a run ends early.
use plan::RowFault;
use replay::Misplaced;
use sheet::Refusal;
use std::alloc::AllocError;
use std::io;
use thiserror::Error;

/// How the program is used.
pub(crate) const USAGE: &str =
    "usage: trial PLAN            plays the plan and writes its log to standard output
       trial < PLAN          the same with the plan from standard input
       trial hold PLAN LOG   plays the plan and holds a recorded log against it, row by row
       trial judge PLAN LOG  judges a recorded log of the plan by the promises over runs
       trial picture PLAN    plays the plan and draws the run, as SVG to standard output
       trial --help          writes this

A plan has a row for each second, command line and breaker reset, a log what each of them
answered; the fields of a row have `;` between them. docs/TRIAL.md has both formats.
The status is 0 where all went well: the plan was run, the logs agree, the law is kept.";

/// What is wrong with a row of the plan.
#[derive(Clone, Copy, Debug, Error)]
pub enum Fault {
    // A row that cannot be read.
    #[error("{0}")]
    Row(#[from] RowFault),
    // A row in a wrong place.
    #[error("{0}")]
    Misplaced(#[from] Misplaced),
}

/// Why a run ends early; a row with its number.
#[derive(Debug, Drop, Error)]
pub enum Stop {
    // The arguments ask for nothing that the program does.
    #[error("{USAGE}")]
    Usage,
    // A file that cannot be opened, by its path.
    #[error("{0}: {1}")]
    Unreadable(String, io::Error),
    // Reading or writing failed.
    #[error("{0}")]
    Io(#[from] io::Error),
    // A malformed row of the plan.
    #[error("row {0}: {1}")]
    Malformed(u64, Fault),
    // The sheet is refused; the log has said so where one is written.
    #[error("the sheet is refused")]
    SheetRefused(Refusal),
    // The recorded log differs from the expected one, or breaks the law or a rule; which was told.
    #[error("the recorded log differs")]
    Differs,
    // The sheet is refused where nobody has told so: the numbers of the refusal and of the figure.
    #[error("the sheet of the plan is refused: {0}, figure {1}")]
    NothingPlayed(u32, u32),
    // The recorded log has another act than the plan.
    #[error("row {0} of the recorded log: expected {1}")]
    Recorded(u64, &'static str),
    // A row of the recorded log that cannot be read.
    #[error("row {0} of the recorded log: {1}")]
    Unread(u64, RowFault),
}

// Memory that runs out is told as an error of input and output.
impl From<AllocError> for Stop {
    fn from(error: AllocError) -> Stop {
        Stop::Io(io::Error::from(error))
    }
}
