// An observer of a run, who works from the log alone.
ghost use Rattle.std.specs.Prelude.{◌≡◌, ℕ, ◌+◌, not, ◌&&◌, [], ◌∷◌};
ghost use Rattle.runlaw.specs.Log.{Log, Row, in_metering};
ghost use Rattle.runlaw.specs.RunLaw.{is_flashing, is_red};
ghost use Rattle.observer.specs.Steps.{wait_with};
ghost use Rattle.observer.specs.Totals.{Shown, observer_of};

use crate::totals::Totals;
use lamps::Colour;
use records::{Phase, count_after};

/// An observer of a run: it is told what each second showed and which acts were refused, and adds up the totals.
/// (docs/RULES.md, "Succession", and docs/TRIAL.md, "The log")
#[derive(Clone, Copy)]
pub struct Observer {
    totals: Totals,
    // whether the newest second is of a window flash
    in_flash: bool,
    // the seconds of the wait so far
    waited: u32,
}

// Whether the second is of a window flash: flashing amber with phase metering.
fn is_window_flash(colour: Colour, phase: Phase) -> bool
    ensures { result ≡ (is_flashing colour && in_metering phase) }
{
    matches!((colour, phase), (Colour::FlashingAmber, Phase::Metering))
}

// Whether the second is of a wait: metered red with a vehicle at the line.
fn is_of_wait(colour: Colour, phase: Phase, presence: bool) -> bool
    ensures { result ≡ (is_red colour && in_metering phase && presence) }
{
    matches!((colour, phase), (Colour::Red, Phase::Metering)) && presence
}

// The seconds of the wait with a second in which it goes on (one more) or does not (0).
fn wait_with(goes_on: bool, waited: u32) -> u32
    ensures { result ≡ wait_with goes_on waited }
{
    if goes_on { count_after(waited) } else { 0 }
}

impl Observer {
    /// An observer of a run that has not begun: all totals are 0.
    pub fn new() -> Observer
        ensures { result ≡ observer_of [] 0 }
    {
        Observer {
            totals: Totals::default(),
            in_flash: false,
            waited: 0,
        }
    }

    // Whether the next second is an opening, where `in_flash` says that it is of a window flash.
    fn opens(self, in_flash: bool) -> bool
        ensures { result ≡ (in_flash && not self.in_flash) }
    {
        in_flash && !self.in_flash
    }

    /// The observer after one second more. `colour` and `phase` are what it showed, `trips` says that it tripped the
    /// station, and `presence` that a vehicle stood at the line. (docs/RULES.md, "Succession")
    pub fn after_second(self, colour: Colour, phase: Phase, trips: bool, presence: bool) -> Observer
        ensures { (rs : Log) (row : Row) (k : ℕ) → Shown row colour phase trips presence →
            self ≡ observer_of rs k → result ≡ observer_of (row ∷ rs) k }
    {
        let in_flash = is_window_flash(colour, phase);
        let waited = wait_with(is_of_wait(colour, phase, presence), self.waited);
        Observer {
            totals: self
                .totals
                .after_second(self.opens(in_flash), trips, waited),
            in_flash,
            waited,
        }
    }

    /// The observer after a refused act, a command line or a breaker reset.
    pub fn after_refusal(self) -> Observer
        ensures { (rs : Log) (k : ℕ) → self ≡ observer_of rs k → result ≡ observer_of rs (k + 1) }
    {
        Observer {
            totals: self.totals.after_refusal(),
            ..self
        }
    }

    /// The totals so far.
    pub fn totals(self) -> Totals
        ensures { result ≡ self.totals }
    {
        self.totals
    }
}
