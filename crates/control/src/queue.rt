// The queue on the ramp: for how long it has been full, and for how long cleared. (docs/RULES.md, "One second")
ghost use Rattle.std.specs.Prelude.{◌≡◌, ◌&&◌, nat_le, nat_lt};
ghost use Rattle.control.specs.Figures.{TO1, TO2};
ghost use Rattle.control.specs.Seconds.{counted_to, queue_after};

use sheet::Sheet;

/// The two counts of the queue, at first 0. (docs/RULES.md, "One second")
#[derive(Clone, Copy, Default)]
pub struct Queue {
    /// Over-count: the seconds in a row with a reading above TO1, t1 at most. At t1 the queue is full.
    pub over: u32,
    /// Under-count: the seconds in a row with a reading below TO2, t2 at most. At t2 the queue is cleared. It starts
    /// anew when draining begins.
    pub under: u32,
}

// The count with one more, to its limit at most, if its test holds; else 0.
fn counted_to(most: u32, holds: bool, count: u32) -> u32
    ensures { result ≡ counted_to most holds count }
{
    if holds {
        count.saturating_add(1).min(most)
    } else {
        0
    }
}

// Whether the reading of the queue loop, in busy milliseconds, is that of a full queue.
fn is_full(sheet: &Sheet, reading: u32) -> bool
    ensures { result ≡ (nat_le reading 1000 && nat_lt (TO1 sheet.now) reading) }
{
    reading <= 1_000 && reading > sheet.figures().queue_full
}

// Whether the reading of the queue loop, in busy milliseconds, is that of a cleared queue.
fn is_cleared(sheet: &Sheet, reading: u32) -> bool
    ensures { result ≡ (nat_le reading 1000 && nat_lt reading (TO2 sheet.now)) }
{
    reading <= 1_000 && reading < sheet.figures().queue_cleared
}

impl Queue {
    /// The counts after a second in which the queue loop was busy for `reading` milliseconds; a reading above 1,000
    /// makes both 0. (docs/RULES.md, "One second")
    pub fn after(self, sheet: &Sheet, reading: u32) -> Queue
        ensures { result ≡ queue_after sheet.now reading self }
    {
        let figures = sheet.figures();
        Queue {
            over: counted_to(
                figures.queue_full_seconds,
                is_full(sheet, reading),
                self.over,
            ),
            under: counted_to(
                figures.queue_cleared_seconds,
                is_cleared(sheet, reading),
                self.under,
            ),
        }
    }
}
