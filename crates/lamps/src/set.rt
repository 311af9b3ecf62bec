// Sets of lamps.
ghost use Rattle.std.specs.Prelude.{◌≡◌, ℕ, ◌/◌, ◌%◌, ◌<◌, ◌==◌};
ghost use Rattle.lamps.specs.Sets.{number_of};

use crate::colour::Lamp;
use std::marker::Model;

/// A set of lamps. Contracts see it as the sum of its lamps' numbers, 0 to 7 (docs/RULES.md, "Lamp heads").
#[derive(Clone, Copy, Debug, PartialEq, Eq)]
pub struct LampSet {
    // Red in the lowest bit, fixed amber in the next, flashing amber in the third.
    bits: u32,
}

impl Model for LampSet {
    ghost Value = { ℕ };

    ghost view = { λ set. set.bits };

    ghost invariant = { λ set. set.bits < 8 };

    ghost inverse = { λ number. record { bits = number } };
}

impl LampSet {
    /// No lamp.
    pub fn empty() -> LampSet
        ensures { result ≡ 0 }
    {
        LampSet { bits: 0 }
    }

    /// The lamp alone.
    pub fn of(lamp: Lamp) -> LampSet
        ensures { result ≡ number_of lamp }
    {
        match lamp {
            Lamp::Red => LampSet { bits: 1 },
            Lamp::FixedAmber => LampSet { bits: 2 },
            Lamp::FlashingAmber => LampSet { bits: 4 },
        }
    }

    /// The lamps whose bits are set: red in the lowest bit, fixed amber in the next, flashing amber in the third.
    /// Higher bits stand for no lamp.
    pub fn from_bits(bits: u32) -> LampSet
        ensures { result ≡ bits % 8 }
    {
        LampSet { bits: bits % 8 }
    }

    /// The set as a number, with a bit for each of its lamps.
    pub fn bits(self) -> u32
        ensures value { result ≡ self }
        ensures within { result < 8 }
    {
        self.bits
    }

    /// Whether the lamp is one of the set.
    pub fn contains(self, lamp: Lamp) -> bool
        ensures { result ≡ ((self / number_of lamp % 2) == 1) }
    {
        self.bits / lamp.number() % 2 == 1
    }
}
