// The hourly plan: a cycle for each hour of the day.
ghost use Rattle.std.specs.Prelude.{◌<◌, ◌≡◌, map};
ghost use Rattle.strategy.specs.Drawn.{Cycles, drawn_cycle};
ghost use Rattle.strategy.specs.Hourly.{hour_of};

use crate::measure::Measure;
use crate::strategy::Strategy;

/// A strategy with a cycle for each hour of the day. Its state is the hour of the minute last told, at first 0.
/// Measures have no effect. (docs/RULES.md, "Hourly plan")
#[derive(Debug, Drop)]
pub struct HourlyPlan {
    // seconds, hour 0 first
    cycles: [u32; 24],
    hour: u32,
    ghost cycles_within: { Cycles cycles },
    ghost hour_of_day: { hour < 24 },
}

// The hour of the day of a minute of the week.
fn hour_of(minute: u32) -> u32
    ensures { result ≡ hour_of minute }
{
    minute / 60 % 24
}

// A cycle drawn into 4 to 120 seconds.
fn draw_cycle(cycle: u32) -> u32
    ensures { result ≡ drawn_cycle cycle }
{
    cycle.clamp(4, 120)
}

// Each of the cycles drawn into 4 to 120 seconds.
fn draw_cycles(cycles: [u32; 24]) -> [u32; 24]
    ensures { result ≡ map drawn_cycle cycles }
{
    cycles.map(draw_cycle)
}

impl HourlyPlan {
    /// The plan with these cycles in seconds, hour 0 first, each drawn into 4 to 120. It begins at hour 0.
    pub fn new(cycles: [u32; 24]) -> HourlyPlan
        ensures cycles { result.cycles ≡ map drawn_cycle cycles }
        ensures hour { result.hour ≡ 0 }
    {
        HourlyPlan {
            cycles: draw_cycles(cycles),
            hour: 0,
        }
    }
}

impl Strategy for HourlyPlan {
    ghost use Rattle.strategy.specs.Meanings.{hourly_meaning};

    ghost next = { hourly_meaning.next };

    ghost cycle = { hourly_meaning.cycle };

    ghost within = { hourly_meaning.within };

    fn tell(&mut self, minute: u32, _measure: Option<Measure>) {
        self.hour = hour_of(minute);
    }

    fn ask(&self) -> u32 {
        self.cycles[self.hour as usize]
    }
}
