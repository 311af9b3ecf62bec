// One type for any strategy of the rules, for programs that choose as they run.
ghost use Rattle.strategy.specs.Chosen.{base_meaning, chosen_meaning};

use crate::alinea::Alinea;
use crate::hourly::HourlyPlan;
use crate::limiter::Limiter;
use crate::measure::Measure;
use crate::strategy::Strategy;

/// A strategy that stands over no other one (docs/RULES.md, "Strategies").
#[derive(Debug, Drop)]
pub enum BaseStrategy {
    /// The flow follows the motorway's occupancy.
    Alinea(Alinea),
    /// A cycle for each hour of the day.
    Hourly(HourlyPlan),
}

/// A base strategy under none, one or two step limiters, chosen as a program runs: one type, so that the program has
/// one station and not one for each strategy. It is a strategy itself, and moves by the rule of what was chosen
/// (docs/RULES.md, "Step limiter").
#[derive(Debug, Drop)]
pub enum ChosenStrategy {
    /// No step limiter.
    Unlimited(BaseStrategy),
    /// One step limiter.
    Once(Limiter<BaseStrategy>),
    /// A step limiter over a step limiter.
    Twice(Limiter<Limiter<BaseStrategy>>),
}

impl Strategy for BaseStrategy {
    ghost next = { base_meaning.next };

    ghost cycle = { base_meaning.cycle };

    ghost within = { base_meaning.within };

    fn tell(&mut self, minute: u32, measure: Option<Measure>) {
        match self {
            BaseStrategy::Alinea(alinea) => alinea.tell(minute, measure),
            BaseStrategy::Hourly(plan) => plan.tell(minute, measure),
        }
    }

    fn ask(&self) -> u32 {
        match self {
            BaseStrategy::Alinea(alinea) => alinea.ask(),
            BaseStrategy::Hourly(plan) => plan.ask(),
        }
    }
}

impl Strategy for ChosenStrategy {
    ghost next = { chosen_meaning.next };

    ghost cycle = { chosen_meaning.cycle };

    ghost within = { chosen_meaning.within };

    fn tell(&mut self, minute: u32, measure: Option<Measure>) {
        match self {
            ChosenStrategy::Unlimited(base) => base.tell(minute, measure),
            ChosenStrategy::Once(limiter) => limiter.tell(minute, measure),
            ChosenStrategy::Twice(limiter) => limiter.tell(minute, measure),
        }
    }

    fn ask(&self) -> u32 {
        match self {
            ChosenStrategy::Unlimited(base) => base.ask(),
            ChosenStrategy::Once(limiter) => limiter.ask(),
            ChosenStrategy::Twice(limiter) => limiter.ask(),
        }
    }
}
