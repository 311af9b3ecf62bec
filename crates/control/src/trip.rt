// Trips: the lamps that are lit against the colour that is ordered. (docs/RULES.md, "One second")
ghost use Rattle.std.specs.Prelude.{◌≡◌};
ghost use Rattle.control.specs.Trips.{ordered_lamp, is_unwanted, lowest_unwanted, trip_with, trip_of};

use crate::answer::Trip;
use lamps::{Colour, Lamp, LampSet};
use records::TripCode;

// The lamp that the colour orders; dark orders none.
fn lamp_of(colour: Colour) -> Option<Lamp>
    ensures { result ≡ ordered_lamp colour }
{
    match colour {
        Colour::Dark => None,
        Colour::Red => Some(Lamp::Red),
        Colour::FixedAmber => Some(Lamp::FixedAmber),
        Colour::FlashingAmber => Some(Lamp::FlashingAmber),
    }
}

// Whether the lamp is lit without being ordered.
fn is_unwanted(lit: LampSet, colour: Colour, lamp: Lamp) -> bool
    ensures { result ≡ is_unwanted lit colour lamp }
{
    lit.contains(lamp) && !colour.lamps().contains(lamp)
}

// The lowest lamp that is lit without being ordered, if there is one; else flashing amber.
fn lowest_unwanted(lit: LampSet, colour: Colour) -> Lamp
    ensures { result ≡ lowest_unwanted lit colour }
{
    if is_unwanted(lit, colour, Lamp::Red) {
        Lamp::Red
    } else if is_unwanted(lit, colour, Lamp::FixedAmber) {
        Lamp::FixedAmber
    } else {
        Lamp::FlashingAmber
    }
}

// The trip of a set that is not the ordered one: by the ordered lamp if that is not lit, else by the unwanted one.
fn trip_with(lit: LampSet, ordered: Option<Lamp>, unwanted: Lamp) -> Trip
    ensures { result ≡ trip_with lit ordered unwanted }
{
    match ordered {
        Some(lamp) if !lit.contains(lamp) => Trip {
            code: TripCode::NotLit,
            lamp,
        },
        _ => Trip {
            code: TripCode::Unwanted,
            lamp: unwanted,
        },
    }
}

/// The trip of a second in which this set of lamps is lit and this colour is ordered; none if the set is that of the
/// colour. (docs/RULES.md, "One second" and "Records")
pub fn trip_of(lit: LampSet, colour: Colour) -> Option<Trip>
    ensures { result ≡ trip_of lit colour }
{
    if lit == colour.lamps() {
        None
    } else {
        Some(trip_with(lit, lamp_of(colour), lowest_unwanted(lit, colour)))
    }
}
