// What a log tells of the light in a second.
ghost use Rattle.std.specs.Prelude.{◌≡◌, not, ◌&&◌};
ghost use Rattle.runlaw.specs.Log.{in_metering};
ghost use Rattle.runlaw.specs.RunLaw.{is_red, is_amber, is_flashing, same};

use lamps::Colour;
use records::Phase;

/// The colour and the phase of a second.
#[derive(Clone, Copy)]
pub(crate) struct Aspect {
    pub(crate) colour: Colour,
    pub(crate) phase: Phase,
}

impl Aspect {
    /// Whether the phase is metering.
    pub(crate) fn is_metering(self) -> bool
        ensures { result ≡ in_metering self.phase }
    {
        matches!(self.phase, Phase::Metering)
    }

    /// Whether the second is of a window flash.
    pub(crate) fn is_window_flash(self) -> bool
        ensures { result ≡ (is_flashing self.colour && in_metering self.phase) }
    {
        matches!(
            (self.colour, self.phase),
            (Colour::FlashingAmber, Phase::Metering)
        )
    }

    /// Whether the second is of a window amber.
    pub(crate) fn is_window_amber(self) -> bool
        ensures { result ≡ (is_amber self.colour && in_metering self.phase) }
    {
        matches!(
            (self.colour, self.phase),
            (Colour::FixedAmber, Phase::Metering)
        )
    }

    /// Whether the second is of metered red.
    pub(crate) fn is_metered_red(self) -> bool
        ensures { result ≡ (is_red self.colour && in_metering self.phase) }
    {
        matches!((self.colour, self.phase), (Colour::Red, Phase::Metering))
    }

    /// Whether the second is an opening, the first of a window flash, after one with the aspect `before`.
    pub(crate) fn opens(self, before: Aspect) -> bool
        ensures { result ≡ ((is_flashing self.colour && in_metering self.phase) &&
            not (is_flashing before.colour && in_metering before.phase)) }
    {
        self.is_window_flash() && !before.is_window_flash()
    }
}

/// Whether the two colours are the same.
pub(crate) fn is_same(one: Colour, other: Colour) -> bool
    ensures { result ≡ same one other }
{
    one == other
}
