// The counts of a station, and what a second makes of them.
ghost use Rattle.std.specs.Prelude.{◌≡◌, if◌then◌else◌};
ghost use Rattle.control.specs.Seconds.{counted_if, counts_after};

use crate::stage::Stage;
use records::count_after;

/// The counts of a station, at first 0. Each stops at 4,294,967,295. (docs/RULES.md, "Purpose and units")
#[derive(Clone, Copy, Default)]
pub struct Counts {
    /// The number of the newest second, 0 before the first.
    pub seconds: u32,
    /// The periods closed: the number of the newest period record.
    pub periods: u32,
    /// Openings since the last period record. An opening is the first second of a window flash, which lets one
    /// vehicle go.
    pub openings: u32,
    /// Seconds of other phases shown since standby; tripped seconds are not counted.
    pub shown: u32,
}

/// The count, with one more if `holds`; it stops at 4,294,967,295.
pub fn counted_if(holds: bool, count: u32) -> u32
    ensures { result ≡ counted_if holds count }
{
    if holds { count_after(count) } else { count }
}

// 0 if a period closed, else the count.
fn unless_closed(closed: bool, count: u32) -> u32
    ensures { result ≡ (if closed then 0 else count) }
{
    if closed { 0 } else { count }
}

impl Counts {
    /// The counts after a second that ended in `stage`; `closed` says that a period closed in it. An opening in the
    /// second of a close counts for the next period record. (docs/RULES.md, "Where rules left room")
    pub fn after(self, closed: bool, stage: Stage) -> Counts
        ensures { result ≡ counts_after closed stage self }
    {
        Counts {
            seconds: count_after(self.seconds),
            periods: counted_if(closed, self.periods),
            openings: unless_closed(closed, self.openings).saturating_add(stage.openings()),
            shown: stage.shown(self.shown),
        }
    }
}
