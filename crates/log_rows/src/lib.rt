// The rows of a trial's log: each type writes one row, without its line end.
#![tactic(auto)]

mod acts;
mod closing;
mod fields;
mod record_rows;
mod second;
mod sheet_refused;
mod words;

pub use acts::{LineRefused, LineTaken, ResetRefused, ResetTaken};
pub use closing::Closing;
pub use record_rows::{AlarmRow, PeriodRow};
pub use second::SecondRow;
pub use sheet_refused::SheetRefused;
