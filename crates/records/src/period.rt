// The period record of a close.
use strategy::Measure;

/// The record that a close of a period puts, after the strategy was told. (docs/RULES.md, "Records")
#[derive(Clone, Copy, Debug, PartialEq, Eq)]
pub struct PeriodRecord {
    /// 1 for the station's first period; stops at 4,294,967,295.
    pub number: u32,
    /// Minute of the week of the close, 0 to 10,079.
    pub minute: u32,
    /// The period's measure, or none if a lane was not sound.
    pub measure: Option<Measure>,
    /// The strategy's cycle in seconds after it was told, 4 to 120.
    pub cycle: u32,
    /// Openings since the last record; an opening is the first second of a window flash, which lets one vehicle go. An
    /// opening in the second of the close belongs to the next record.
    pub openings: u32,
}
