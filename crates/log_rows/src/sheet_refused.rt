// The row of a refused draft.
ghost use Rattle.std.specs.Prelude.{Some};
ghost use Rattle.log_rows.specs.Rows.{sheet_refused_text};

use sheet::Refusal;
use std::fmt;

/// Writes the `sheet` row of a draft that was refused: refusal 1, 2 or 3 and the number of the figure
/// (docs/RULES.md, "Accepting a sheet").
#[derive(Clone, Copy, Debug, PartialEq, Eq)]
pub struct SheetRefused(pub Refusal);

impl fmt::Display for SheetRefused {
    ghost output = { λ x. Some (sheet_refused_text x.0) };

    fn fmt<W: fmt::Write>(&self, f: &mut fmt::Formatter<W>) -> fmt::Result {
        write!(f, "sheet;refused;{};{}", self.0.number, self.0.figure)
    }
}
