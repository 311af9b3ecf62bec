// The lamps of a head, and the colours that light them.
ghost use Rattle.std.specs.Prelude.{◌≡◌};
ghost use Rattle.lamps.specs.Sets.{number_of, lamps_of};

use crate::set::LampSet;

/// A lamp of the head. (docs/RULES.md, "Lamp heads")
#[derive(Clone, Copy, Debug, PartialEq, Eq)]
pub enum Lamp {
    /// A vehicle waits.
    Red,
    /// Red follows.
    FixedAmber,
    /// A vehicle may go.
    FlashingAmber,
}

impl Lamp {
    /// The lamp's number, as alarm records and the log have it: 1, 2 or 4.
    pub fn number(self) -> u32
        ensures { result ≡ number_of self }
    {
        match self {
            Lamp::Red => 1,
            Lamp::FixedAmber => 2,
            Lamp::FlashingAmber => 4,
        }
    }
}

/// What the light shows or is ordered to show: dark, or one of its lamps. (docs/RULES.md, "Lamp heads")
#[derive(Clone, Copy, Debug, PartialEq, Eq)]
pub enum Colour {
    /// No lamp.
    Dark,
    /// The red lamp.
    Red,
    /// The fixed amber lamp.
    FixedAmber,
    /// The flashing amber lamp.
    FlashingAmber,
}

impl Colour {
    /// The lamps that are lit when the head shows this colour.
    pub fn lamps(self) -> LampSet
        ensures { result ≡ lamps_of self }
    {
        match self {
            Colour::Dark => LampSet::empty(),
            Colour::Red => LampSet::of(Lamp::Red),
            Colour::FixedAmber => LampSet::of(Lamp::FixedAmber),
            Colour::FlashingAmber => LampSet::of(Lamp::FlashingAmber),
        }
    }
}
