// The succession of colours. (docs/RULES.md, "Succession")
ghost use Rattle.std.specs.Prelude.{◌≡◌, ◌<◌, ◌≤◌, cond, ◌∷◌, Decides, length};
ghost use Rattle.control.specs.Figures.{T2, JF, RM};
ghost use Rattle.runlaw.specs.Log.{Log, Row};
ghost use Rattle.runlaw.specs.RunLaw.{MayFollow};
ghost use Rattle.judge.specs.Course.{aspect_of, stretch_of};

use crate::aspect::{Aspect, is_same};
use lamps::Colour;
use records::count_after;
use sheet::Sheet;

// The length in seconds of a fixed amber that does not follow a window flash.
const OPENING_AMBER: u32 = 5;

/// The stretch of one colour that ends with the newest second.
#[derive(Clone, Copy, Default)]
pub(crate) struct Stretch {
    /// Its seconds so far.
    pub(crate) length: u32,
    /// Whether the second right before it is of a window flash.
    pub(crate) after_flash: bool,
    /// Whether the second right before it is of a window amber.
    pub(crate) after_amber: bool,
}

impl Stretch {
    /// The stretch after one second more, of this colour; `before` is the aspect of the second before.
    pub(crate) fn after(self, before: Aspect, colour: Colour) -> Stretch
        ensures { (r : Row) (rs : Log) → length rs < 4294967295 → r.colour ≡ colour →
            before ≡ aspect_of rs → self ≡ stretch_of rs → result ≡ stretch_of (r ∷ rs) }
    {
        if is_same(colour, before.colour) {
            Stretch {
                length: count_after(self.length),
                ..self
            }
        } else {
            Stretch {
                length: 1,
                after_flash: before.is_window_flash(),
                after_amber: before.is_window_amber(),
            }
        }
    }

    // Whether this fixed amber has lasted exactly as long as it must: JF after a window flash, else 5 seconds.
    fn is_whole_amber(self, sheet: &Sheet) -> bool
        ensures { Decides result (self.length ≡ cond self.after_flash (JF sheet.now) 5) }
    {
        let seconds = if self.after_flash {
            sheet.figures().window_amber
        } else {
            OPENING_AMBER
        };
        self.length == seconds
    }

    // Whether this red has lasted as long as it must: RM after a window amber, else T2, or longer.
    fn is_old_red(self, sheet: &Sheet) -> bool
        ensures { Decides result (cond self.after_amber (RM sheet.now) (T2 sheet.now) ≤ self.length) }
    {
        let least = if self.after_amber {
            sheet.figures().minimum_red
        } else {
            sheet.figures().opening_red
        };
        least <= self.length
    }

    /// Whether a second of the colour `now` may follow this stretch, which has the colour `before`; `trips` says that
    /// the second trips. (docs/RULES.md, "Succession")
    pub(crate) fn may_precede(self, sheet: &Sheet, before: Colour, now: Colour, trips: bool) -> bool
        ensures { Decides result (MayFollow sheet.now trips self.length self.after_flash self.after_amber before now) }
    {
        match (before, now) {
            (Colour::FixedAmber, Colour::Red) => self.is_whole_amber(sheet),
            (Colour::Red, Colour::FlashingAmber) => self.is_old_red(sheet),
            (Colour::Red | Colour::FixedAmber, Colour::Dark) => trips,
            (Colour::Dark, Colour::Red | Colour::FixedAmber) => false,
            (Colour::Red, Colour::FixedAmber) => false,
            (Colour::FixedAmber, Colour::FlashingAmber) => false,
            (Colour::FlashingAmber, Colour::Red) => false,
            _ => true,
        }
    }
}
