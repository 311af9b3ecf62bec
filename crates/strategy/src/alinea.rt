// ALINEA: the ramp's flow follows the motorway's occupancy.
ghost use Rattle.std.specs.Prelude.{◌*◌, ◌≤◌, ◌≡◌, pos, ◌-ℤ◌};

use crate::drawn::draw_into;
use crate::measure::Measure;
use crate::strategy::Strategy;
use sheet::Sheet;

/// A feedback strategy: more vehicles from the ramp while the motorway's occupancy is below the critical one, fewer
/// above it. Its state is a flow, which always lies within its two limits. (docs/RULES.md, "ALINEA")
#[derive(Debug, Drop)]
pub struct Alinea {
    // tenths of a vehicle per hour; the two limits are whole vehicles per hour
    flow_tenths: u32,
    lowest_flow: u32,
    highest_flow: u32,
    // vehicles per hour per percent, which is tenths of a vehicle per hour per per mille
    gain: u32,
    // per mille
    critical_occupancy: u32,
    ghost flow_not_below: { 10 * lowest_flow ≤ flow_tenths },
    ghost flow_not_above: { flow_tenths ≤ 10 * highest_flow },
    ghost lowest_flow_least: { 30 ≤ lowest_flow },
    ghost highest_flow_most: { highest_flow ≤ 900 },
    ghost gain_most: { gain ≤ 200 },
    ghost critical_occupancy_most: { critical_occupancy ≤ 999 },
}

impl Alinea {
    ghost use Rattle.strategy.specs.Alinea.{moved_flow, measured_flow};
    ghost use Rattle.strategy.specs.Meanings.{fresh_alinea};

    /// ALINEA with figures 18 to 22 of an accepted sheet, at the sheet's first flow. The sheet can still open a
    /// station.
    pub fn new(sheet: &Sheet) -> Alinea
        ensures { result ≡ fresh_alinea sheet.now }
    {
        let figures = sheet.figures();
        Alinea {
            flow_tenths: 10 * figures.first_flow,
            lowest_flow: figures.lowest_flow,
            highest_flow: figures.highest_flow,
            gain: figures.gain,
            critical_occupancy: figures.critical_occupancy,
        }
    }

    // How many per mille an occupancy lies below the critical one; negative above it.
    fn below_critical(&self, occupancy: u32) -> i64
        ensures { result ≡ pos self.now.critical_occupancy -ℤ pos occupancy }
    {
        i64::from(self.critical_occupancy) - i64::from(occupancy)
    }

    // The flow in tenths of a vehicle per hour, moved by gain × (critical occupancy − occupancy) and not yet drawn into
    // its limits.
    fn moved_flow(&self, occupancy: u32) -> i64
        ensures { result ≡ moved_flow self.now.gain self.now.critical_occupancy self.now.flow_tenths occupancy }
    {
        i64::from(self.flow_tenths) + i64::from(self.gain) * self.below_critical(occupancy)
    }

    // The flow in tenths of a vehicle per hour after a period with this occupancy, drawn into its limits.
    fn flow_after(&self, occupancy: u32) -> u32
        ensures { result ≡ measured_flow self.now.gain self.now.critical_occupancy self.now.lowest_flow
            self.now.highest_flow self.now.flow_tenths occupancy }
    {
        let moved = self.moved_flow(occupancy);
        draw_into(10 * self.lowest_flow, 10 * self.highest_flow, moved)
    }
}

impl Strategy for Alinea {
    ghost use Rattle.strategy.specs.Meanings.{alinea_meaning};

    ghost next = { alinea_meaning.next };

    ghost cycle = { alinea_meaning.cycle };

    ghost within = { alinea_meaning.within };

    fn tell(&mut self, _minute: u32, measure: Option<Measure>) {
        if let Some(m) = measure {
            self.flow_tenths = self.flow_after(m.occupancy_permille);
        }
    }

    fn ask(&self) -> u32 {
        36_000u32.div_ceil(self.flow_tenths)
    }
}
