// Strategies: which cycle a station has to follow, by what its loops measured or by the hour.
#![tactic(auto)]

mod alinea;
mod chosen;
mod drawn;
mod hourly;
mod limiter;
mod measure;
mod strategy;

pub use alinea::Alinea;
pub use chosen::{BaseStrategy, ChosenStrategy};
pub use hourly::HourlyPlan;
pub use limiter::Limiter;
pub use measure::Measure;
pub use strategy::Strategy;
