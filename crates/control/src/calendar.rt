// The calendar: the minutes of the week in which metering is wanted in local mode.
ghost use Rattle.std.specs.Prelude.{◌≡◌};
ghost use Rattle.control.specs.Seconds.{in_range, in_calendar};

use sheet::MinuteRange;

// Whether the minute lies in the range, whose last minute is the one before `to`.
fn in_range(range: MinuteRange, minute: u32) -> bool
    ensures { result ≡ in_range range minute }
{
    range.from <= minute && minute < range.to
}

/// Whether one of the ranges has the minute of the week (0 to 10,079): from ≤ minute < to. A range that reaches beyond
/// minute 10,080 does not go on at minute 0. (docs/RULES.md, "One second" and "Where rules left room")
pub fn in_calendar(calendar: &[MinuteRange], minute: u32) -> bool
    ensures { result ≡ in_calendar calendar.now minute }
{
    calendar.iter().any(|range| in_range(*range, minute))
}
