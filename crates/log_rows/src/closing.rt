// The closing row, with which the log of a whole run ends.
ghost use Rattle.std.specs.Prelude.{Some};
ghost use Rattle.log_rows.specs.Whole.{totals_text};

use observer::Totals;
use std::fmt;

/// Writes the closing row of a whole run, from its totals (docs/TRIAL.md, "The log").
#[derive(Clone, Copy)]
pub struct Closing(pub Totals);

impl fmt::Display for Closing {
    ghost output = { λ x. Some (totals_text x.0) };

    fn fmt<W: fmt::Write>(&self, f: &mut fmt::Formatter<W>) -> fmt::Result {
        let Totals {
            seconds,
            openings,
            longest,
            trips,
            refusals,
        } = self.0;
        write!(f, "trial;{seconds};{openings};{longest};{trips};{refusals}")
    }
}
