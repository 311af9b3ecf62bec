// The reference clock, as an observer works it out. (docs/RULES.md, "Succession")
ghost use Rattle.std.specs.Prelude.{◌≡◌, not, ◌&&◌, Bool, ◌∷◌, nat_lt};
ghost use Rattle.lamps.specs.declared.colour.Colour.{Colour};
ghost use Rattle.records.specs.declared.phase.Phase.{Phase};
ghost use Rattle.runlaw.specs.Log.{Log, row_by, runs_on};
ghost use Rattle.judge.specs.Course.{clock_of};

/// The reference clock in the newest second; its default is that of a second that is no metering second.
#[derive(Clone, Copy, Default)]
pub(crate) struct Clock {
    /// Whether the second is a metering second.
    pub(crate) metering: bool,
    /// The length in seconds of the reference cycle that runs in it, 0 outside metering seconds.
    pub(crate) cycle: u32,
    /// The seconds that this reference cycle has lasted, the newest included.
    pub(crate) lasted: u32,
}

impl Clock {
    /// Whether the reference cycle has not lasted its length yet, and so runs on after the newest second.
    pub(crate) fn runs_on(self) -> bool
        ensures { result ≡ (self.metering && nat_lt self.lasted self.cycle) }
    {
        self.metering && self.lasted < self.cycle
    }

    /// Whether a reference cycle begins in the next second, where `metering` says that it is a metering second.
    pub(crate) fn begins(self, metering: bool) -> bool
        ensures { result ≡ (metering && not (self.metering && nat_lt self.lasted self.cycle)) }
    {
        metering && !self.runs_on()
    }

    /// The clock after one second more, where `metering` says that it is a metering second and `length` is that of a
    /// reference cycle that begins in it.
    pub(crate) fn after(self, metering: bool, length: u32) -> Clock
        ensures { (rs : Log) (c : Colour) (p : Phase) (trip presence reset : Bool) → self ≡ clock_of rs →
            result ≡ clock_of (row_by metering (runs_on rs) c p trip presence reset length rs ∷ rs) }
    {
        if !metering {
            Clock::default()
        } else if self.runs_on() {
            Clock {
                lasted: self.lasted + 1,
                ..self
            }
        } else {
            Clock {
                metering,
                cycle: length,
                lasted: 1,
            }
        }
    }
}
