// What every strategy is.
ghost use Rattle.std.specs.Prelude.{◌≡◌, ℕ, ◌≤◌, Option};
ghost use Rattle.strategy.specs.declared.measure.Measure.{Measure};

use crate::measure::Measure;

/// A strategy says which cycle a station has to follow. Its states are the values of its type; its meaning is the rule
/// `next` and the `cycle` of each state. (docs/RULES.md, "Strategies")
pub trait Strategy {
    // The state that follows a state, when told a minute and a measure or none.
    ghost next: { Self → ℕ → Option Measure → Self };

    // The cycle of a state in seconds.
    ghost cycle: { Self → ℕ };

    // The cycle of every state, reached or not, is 4 to 120.
    ghost within: { (s : Self) → (4 ≤ cycle s) × (cycle s ≤ 120) };

    /// Takes the minute of the week, 0 to 10,079, of the second in which a period closed, and the period's measure, or
    /// none if a lane was not sound. Moves to the next state.
    fn tell(&mut self, minute: u32, measure: Option<Measure>)
        ensures { self.new ≡ next self.old minute measure };

    /// The cycle of its state in seconds, 4 to 120. Asking alters nothing.
    fn ask(&self) -> u32
        ensures value { result ≡ cycle self.now }
        ensures same { self.exit.now ≡ self.entry.now };
}
