// The measure of a period.

/// What a period comes to for lanes that are sound. (docs/RULES.md, "Loops, intervals, periods")
#[derive(Clone, Copy, Debug, PartialEq, Eq)]
pub struct Measure {
    /// Vehicles of all lanes, counted in the period.
    pub flow: u32,
    /// Mean of the lanes' occupancies in per mille, rounded down.
    pub occupancy_permille: u32,
}
