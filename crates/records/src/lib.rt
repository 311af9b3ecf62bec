// Records of periods and alarms, the phases, and the ring that keeps the newest records.
#![tactic(auto)]

mod alarm;
mod copying;
mod period;
mod phase;
mod putting;
mod ring;

pub use alarm::{AlarmRecord, TripCode};
pub use copying::{copy_front, copy_kept};
pub use period::PeriodRecord;
pub use phase::Phase;
pub use putting::{count_after, put_in};
pub use ring::Ring;
