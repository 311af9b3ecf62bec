// The words of the log for a colour, a phase and the advance sign.
ghost use Rattle.std.specs.Prelude.{◌≡◌};
ghost use Rattle.log_rows.specs.Fields.{colour_text, phase_text, sign_text};

use lamps::Colour;
use records::Phase;

/// The word of the log for a colour of the light (docs/TRIAL.md, "The log").
pub fn colour_word(colour: Colour) -> &'static str
    ensures { result.now ≡ colour_text colour }
{
    match colour {
        Colour::Dark => "dark",
        Colour::FlashingAmber => "flashing",
        Colour::FixedAmber => "amber",
        Colour::Red => "red",
    }
}

/// The word of the log for a phase (docs/TRIAL.md, "The log").
pub fn phase_word(phase: Phase) -> &'static str
    ensures { result.now ≡ phase_text phase }
{
    match phase {
        Phase::Standby => "standby",
        Phase::OpeningFlash => "opening-flash",
        Phase::OpeningAmber => "opening-amber",
        Phase::OpeningRed => "opening-red",
        Phase::Metering => "metering",
        Phase::Draining => "draining",
        Phase::Closing => "closing",
        Phase::Tripped => "tripped",
    }
}

/// The word of the log for the advance sign: `on` if `sign` is true, else `off`.
pub fn sign_word(sign: bool) -> &'static str
    ensures { result.now ≡ sign_text sign }
{
    if sign { "on" } else { "off" }
}
