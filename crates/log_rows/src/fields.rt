// Fields that more than one row has.
ghost use Rattle.std.specs.Prelude.{Some};
ghost use Rattle.log_rows.specs.Fields.{shown_or, refused_text};
ghost use Rattle.log_rows.specs.Rows.{number_or_dash};

use orders::Refusal;
use std::fmt;

/// Writes what an option holds, or a word if it holds nothing.
#[derive(Clone, Copy)]
pub(crate) struct ShownOr<N> {
    pub(crate) held: Option<N>,
    pub(crate) word: &'static str,
}

/// Writes that an act was refused: the number of the refusal and its value, which is empty if there is none.
#[derive(Clone, Copy)]
pub(crate) struct Refused(pub(crate) Refusal);

impl<N: fmt::Display> fmt::Display for ShownOr<N> {
    ghost output = { λ x. shown_or N.output x.word.now x.held };

    fn fmt<W: fmt::Write>(&self, f: &mut fmt::Formatter<W>) -> fmt::Result {
        match &self.held {
            Some(held) => write!(f, "{held}"),
            None => f.write_str(self.word),
        }
    }
}

impl fmt::Display for Refused {
    ghost output = { λ x. Some (refused_text x.0) };

    fn fmt<W: fmt::Write>(&self, f: &mut fmt::Formatter<W>) -> fmt::Result {
        let value = ShownOr {
            held: self.0.value,
            word: "",
        };
        write!(f, "refused;{};{value}", self.0.number)
    }
}

/// Writes a number, or `-` if there is none, as in flow and occupancy of a period without a measure.
#[derive(Clone, Copy, Debug, PartialEq, Eq)]
pub struct OrDash(pub Option<u32>);

impl fmt::Display for OrDash {
    ghost output = { λ x. Some (number_or_dash x.0) };

    fn fmt<W: fmt::Write>(&self, f: &mut fmt::Formatter<W>) -> fmt::Result {
        let shown = ShownOr {
            held: self.0,
            word: "-",
        };
        write!(f, "{shown}")
    }
}
