// The totals of a run. (docs/TRIAL.md, "The log")
ghost use Rattle.std.specs.Prelude.{◌≡◌};
ghost use Rattle.observer.specs.Steps.{second_added, refusal_added};

use control::counted_if;
use records::count_after;

/// The figures of a run's closing row. Each stops at 4,294,967,295. (docs/TRIAL.md, "The log")
#[derive(Clone, Copy, Default)]
pub struct Totals {
    /// The seconds of the run.
    pub seconds: u32,
    /// The openings: first seconds of a window flash, each of which lets one vehicle go.
    pub openings: u32,
    /// The longest wait of a vehicle at metered red, in seconds.
    pub longest: u32,
    /// The seconds that tripped the station.
    pub trips: u32,
    /// The refused acts.
    pub refusals: u32,
}

impl Totals {
    /// The totals with one second more. `opens` says that it is an opening, `trips` that it trips, and `waited` is the
    /// wait so far in seconds, this one included.
    pub(crate) fn after_second(self, opens: bool, trips: bool, waited: u32) -> Totals
        ensures { result ≡ second_added opens trips waited self }
    {
        Totals {
            seconds: count_after(self.seconds),
            openings: counted_if(opens, self.openings),
            longest: self.longest.max(waited),
            trips: counted_if(trips, self.trips),
            refusals: self.refusals,
        }
    }

    /// The totals with one refused act more.
    pub(crate) fn after_refusal(self) -> Totals
        ensures { result ≡ refusal_added self }
    {
        Totals {
            refusals: count_after(self.refusals),
            ..self
        }
    }
}
