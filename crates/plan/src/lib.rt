// Reads the rows of a trial plan, and those of a recorded log (docs/TRIAL.md).
#![tactic(auto)]

mod fault;
mod fields;
mod figures;
mod filling;
mod kind;
mod number;
mod plain_rows;
mod reader;
mod recorded;
mod recorded_words;
mod row;
mod second;
mod strategy_row;
mod text;
mod value;
mod words;

pub use fault::{RowFault, Wanted};
pub use number::read_number;
pub use reader::Reader;
pub use recorded::{RecordedRow, RecordedSecond, read_recorded};
pub use row::{Base, HeadKind, Limits, Row, SecondRow, StrategyRow, Word};
pub use text::{command_text, row_text, without_end};
