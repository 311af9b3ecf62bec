// What an observer of a run counts: its seconds, openings, longest wait, trips and refused acts.
#![tactic(auto)]

mod observer;
mod totals;

pub use observer::Observer;
pub use totals::Totals;
