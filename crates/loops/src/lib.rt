// The loops: what the lane readings of a period come to.
#![tactic(auto)]

mod figures;
mod interval;
mod lane;
mod reading;
mod tally;

pub use reading::LaneReading;
pub use tally::PeriodTally;
