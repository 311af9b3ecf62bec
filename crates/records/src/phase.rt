// The phases of a station.

/// The phase of a station. (docs/RULES.md, "Phases")
#[derive(Clone, Copy, Debug, PartialEq, Eq)]
pub enum Phase {
    /// Dark, until metering is wanted.
    Standby,
    /// Flashing amber when service begins, for T1 seconds.
    OpeningFlash,
    /// Fixed amber after a flash, for 5 seconds.
    OpeningAmber,
    /// Red before metering, for T2 seconds.
    OpeningRed,
    /// Red, and windows that let vehicles go one by one, at the pace of the reference cycles.
    Metering,
    /// Flashing amber while the ramp runs off, until the queue is cleared or metering is not wanted.
    Draining,
    /// Flashing amber when service ends, for T3 seconds.
    Closing,
    /// Dark, until a breaker reset.
    Tripped,
}
