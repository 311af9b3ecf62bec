// Waits at metered red. (docs/RULES.md, "Promises")
ghost use Rattle.std.specs.Prelude.{◌≡◌, ◌<◌, cond, ◌∷◌, Decides, length};
ghost use Rattle.records.specs.Kept.{count_after};
ghost use Rattle.runlaw.specs.Log.{Log, Row};
ghost use Rattle.runlaw.specs.RunLaw.{waits, Waits};
ghost use Rattle.judge.specs.Course.{wait_of};

use records::count_after;
use sheet::Sheet;

// The longest wait in seconds that any sheet and any reference cycle allow.
const LONGEST: u32 = 115;

/// The wait that ends with the newest second: seconds in a row of metered red with a vehicle at the line.
#[derive(Clone, Copy, Default)]
pub(crate) struct Wait {
    /// Whether the newest second is of a wait.
    pub(crate) waits: bool,
    /// The seconds of the wait so far, 0 without one.
    pub(crate) seconds: u32,
    /// The length in seconds of the reference cycle that ran in the first second of the wait.
    pub(crate) cycle: u32,
}

// The seconds of the wait with a second in which it goes on (one more) or does not (0).
fn wait_with(goes_on: bool, seconds: u32) -> u32
    ensures { result ≡ cond goes_on (count_after seconds) 0 }
{
    if goes_on { count_after(seconds) } else { 0 }
}

impl Wait {
    // The reference cycle of a wait in the next second: that of its first second, which is the next if none waits now.
    fn cycle_with(self, next: u32) -> u32
        ensures { result ≡ cond self.waits self.cycle next }
    {
        if self.waits { self.cycle } else { next }
    }

    /// The wait after one second more, where `goes_on` says that the second is of a wait, and `cycle` is the length in
    /// seconds of the reference cycle that runs in it.
    pub(crate) fn after(self, goes_on: bool, cycle: u32) -> Wait
        ensures { (r : Row) (rs : Log) → length rs < 4294967295 → waits r ≡ goes_on → r.cycle ≡ cycle →
            self ≡ wait_of rs → result ≡ wait_of (r ∷ rs) }
    {
        Wait {
            waits: goes_on,
            seconds: wait_with(goes_on, self.seconds),
            cycle: self.cycle_with(cycle),
        }
    }

    /// Whether the wait is no longer than RM or its reference cycle less JC and JF, whichever is more, nor than 115
    /// seconds. (docs/RULES.md, "Promises")
    pub(crate) fn is_short(self, sheet: &Sheet) -> bool
        ensures { (rs : Log) → self ≡ wait_of rs → Decides result (Waits sheet.now rs) }
    {
        let figures = sheet.figures();
        let closed = self
            .cycle
            .saturating_sub(figures.window_flash)
            .saturating_sub(figures.window_amber);
        self.seconds <= figures.minimum_red.max(closed) && self.seconds <= LONGEST
    }
}
