// Replays a plan: collects the rows that open its station, and drives the station through its acts.
#![tactic(auto)]

mod act;
mod answered;
mod run;
mod setup;

pub use act::{Act, LineAct, SecondAct};
pub use answered::{Answered, Outcome, Reply, SecondOutcome};
pub use run::Run;
pub use setup::{Misplaced, Opening, Setup, Slot};
