// The alarm record of a trip.
ghost use Rattle.std.specs.Prelude.{◌≡◌};
ghost use Rattle.records.specs.Codes.{code_number};

use crate::phase::Phase;
use lamps::Lamp;

/// Why a station tripped. (docs/RULES.md, "Records")
#[derive(Clone, Copy, Debug, PartialEq, Eq)]
pub enum TripCode {
    /// The lamp of the ordered colour is not lit: code 1, also if another lamp is lit.
    NotLit,
    /// A lamp is lit that is not ordered: code 2.
    Unwanted,
}

impl TripCode {
    /// The number of the code, 1 or 2.
    pub fn number(self) -> u32
        ensures { result ≡ code_number self }
    {
        match self {
            TripCode::NotLit => 1,
            TripCode::Unwanted => 2,
        }
    }
}

/// The record that a trip puts. (docs/RULES.md, "Records")
#[derive(Clone, Copy, Debug, PartialEq, Eq)]
pub struct AlarmRecord {
    /// Second number of the trip, 1 for the station's first second.
    pub second: u32,
    /// Why the station tripped.
    pub code: TripCode,
    /// Code 1: the ordered lamp. Code 2: the lowest lamp that is lit and not ordered.
    pub lamp: Lamp,
    /// Phase before the trip.
    pub phase: Phase,
}
