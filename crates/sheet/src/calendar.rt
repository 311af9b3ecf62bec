// A range of minutes of the week, of which a calendar is a list.

/// A range of minutes of the week in which metering is wanted in local mode. Minute m is in it if from ≤ m < to.
/// (docs/RULES.md, "One second")
#[derive(Clone, Copy, Debug, Default, PartialEq, Eq)]
pub struct MinuteRange {
    /// First minute of the range; minutes of the week are 0 to 10,079.
    pub from: u32,
    /// First minute after the range. A range that reaches beyond minute 10,080 does not go on at minute 0.
    pub to: u32,
}
