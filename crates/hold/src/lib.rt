// Holds a recorded log against the expected log, row by row.
#![tactic(auto)]

mod pair;
mod tally;

pub use pair::Pair;
pub use tally::Tally;
