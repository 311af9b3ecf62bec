// The row of a second.
ghost use Rattle.std.specs.Prelude.{Some};
ghost use Rattle.log_rows.specs.Fields.{trip_text};
ghost use Rattle.log_rows.specs.Whole.{second_text};

use crate::words::{colour_word, phase_word, sign_word};
use control::{Answer, Trip};
use std::fmt;

/// Writes the `second` row of one second (docs/TRIAL.md, "The log").
#[derive(Clone, Copy)]
pub struct SecondRow {
    /// The second number; the station's first second has 1.
    pub number: u32,
    /// Colour, phase, advance sign and trip of this second, as the station returned them.
    pub answer: Answer,
    /// Seconds from one vehicle to the next: the length of the reference cycle that runs after this second, 0 outside
    /// metering.
    pub cycle: u32,
}

// Writes the numbers of code and lamp of a trip, or nothing if there was none.
#[derive(Clone, Copy)]
struct TripField(Option<Trip>);

impl fmt::Display for TripField {
    ghost output = { λ x. Some (trip_text x.0) };

    fn fmt<W: fmt::Write>(&self, f: &mut fmt::Formatter<W>) -> fmt::Result {
        match self.0 {
            Some(trip) => write!(f, "{}|{}", trip.code.number(), trip.lamp.number()),
            None => Ok(()),
        }
    }
}

impl fmt::Display for SecondRow {
    ghost output = { λ x. Some (second_text x) };

    fn fmt<W: fmt::Write>(&self, f: &mut fmt::Formatter<W>) -> fmt::Result {
        let SecondRow {
            number,
            answer,
            cycle,
        } = *self;
        let colour = colour_word(answer.colour);
        let phase = phase_word(answer.phase);
        let sign = sign_word(answer.sign);
        let trip = TripField(answer.trip);
        write!(f, "second;{number};{colour};{phase};{sign};{trip};{cycle}")
    }
}
