// Reads the fields of a recorded log that hold words.
ghost use Rattle.std.specs.Prelude.{◌≡◌};
ghost use Rattle.plan.specs.Recorded.{colour_of, phase_of, trip_of, taken_of};
ghost use Rattle.plan.specs.Words.{reads};
ghost use Rattle.plan.specs.declared.fault.Wanted.TheVariants.{Taken as ATaken, Colour as AColour};
ghost use Rattle.plan.specs.declared.fault.Wanted.TheVariants.{Phase as APhase, Trip as ATrip};

use crate::fault::Wanted;
use crate::value::Value;
use lamps::Colour;
use records::Phase;

impl Value for Colour {
    ghost means = { colour_of };

    ghost named = { AColour };

    fn read(text: &[u8]) -> Option<Colour> {
        match text {
            b"dark" => Some(Colour::Dark),
            b"red" => Some(Colour::Red),
            b"amber" => Some(Colour::FixedAmber),
            b"flashing" => Some(Colour::FlashingAmber),
            _ => None,
        }
    }

    fn wanted() -> Wanted {
        Wanted::Colour
    }
}

/// Whether the text is this word. Phases are told apart by it, since the prover cannot do a `match` on words as long as
/// theirs.
pub(crate) fn is(text: &[u8], word: &[u8]) -> bool
    ensures { result ≡ reads text.now word.now }
{
    word == text
}

impl Value for Phase {
    ghost means = { phase_of };

    ghost named = { APhase };

    fn read(text: &[u8]) -> Option<Phase> {
        if is(text, b"standby") {
            Some(Phase::Standby)
        } else if is(text, b"opening-flash") {
            Some(Phase::OpeningFlash)
        } else if is(text, b"opening-amber") {
            Some(Phase::OpeningAmber)
        } else if is(text, b"opening-red") {
            Some(Phase::OpeningRed)
        } else if is(text, b"metering") {
            Some(Phase::Metering)
        } else if is(text, b"draining") {
            Some(Phase::Draining)
        } else if is(text, b"closing") {
            Some(Phase::Closing)
        } else if is(text, b"tripped") {
            Some(Phase::Tripped)
        } else {
            None
        }
    }

    fn wanted() -> Wanted {
        Wanted::Phase
    }
}

/// The field of a trip, which is empty if the second did not trip.
#[derive(Clone, Copy)]
pub(crate) struct TripField {
    pub(crate) trips: bool,
}

impl Value for TripField {
    ghost means = { trip_of };

    ghost named = { ATrip };

    fn read(text: &[u8]) -> Option<TripField> {
        Some(TripField {
            trips: !text.is_empty(),
        })
    }

    fn wanted() -> Wanted {
        Wanted::Trip
    }
}

/// The field that says how an act ended: `taken` or `refused`.
#[derive(Clone, Copy)]
pub(crate) struct TakenWord {
    pub(crate) taken: bool,
}

impl Value for TakenWord {
    ghost means = { taken_of };

    ghost named = { ATaken };

    fn read(text: &[u8]) -> Option<TakenWord> {
        match text {
            b"taken" => Some(TakenWord { taken: true }),
            b"refused" => Some(TakenWord { taken: false }),
            _ => None,
        }
    }

    fn wanted() -> Wanted {
        Wanted::Taken
    }
}
