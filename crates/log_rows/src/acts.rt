// The rows of command lines and breaker resets.
ghost use Rattle.std.specs.Prelude.{Some};
ghost use Rattle.log_rows.specs.Whole.{line_taken_text, line_refused_text, reset_taken_text, reset_refused_text};

use crate::fields::Refused;
use orders::Refusal;
use std::{fmt, str};

/// Writes the `line` row of a command line that was taken, from the bytes of its reply (docs/TRIAL.md, "The log").
/// Writing fails if the bytes are not UTF-8; a station's replies always are.
#[derive(Clone, Copy)]
pub struct LineTaken<'a>(pub &'a [u8]);

/// Writes the `line` row of a command line that was refused: number and value of the refusal
/// (docs/RULES.md, "Refusals").
#[derive(Clone, Copy)]
pub struct LineRefused(pub Refusal);

/// Writes the `reset` row of a breaker reset that was taken (docs/TRIAL.md, "The log").
#[derive(Clone, Copy)]
pub struct ResetTaken;

/// Writes the `reset` row of a breaker reset that was refused: number and value of the refusal
/// (docs/RULES.md, "Refusals").
#[derive(Clone, Copy)]
pub struct ResetRefused(pub Refusal);

impl fmt::Display for LineTaken<'_> {
    ghost output = { λ x. Some (line_taken_text x.0.now) };

    fn fmt<W: fmt::Write>(&self, f: &mut fmt::Formatter<W>) -> fmt::Result {
        let reply = str::from_utf8(self.0).map_err(|_| fmt::Error)?;
        write!(f, "line;taken;{reply}")
    }
}

impl fmt::Display for LineRefused {
    ghost output = { λ x. Some (line_refused_text x.0) };

    fn fmt<W: fmt::Write>(&self, f: &mut fmt::Formatter<W>) -> fmt::Result {
        write!(f, "line;{}", Refused(self.0))
    }
}

impl fmt::Display for ResetTaken {
    ghost output = { λ _. Some reset_taken_text };

    fn fmt<W: fmt::Write>(&self, f: &mut fmt::Formatter<W>) -> fmt::Result {
        write!(f, "reset;taken")
    }
}

impl fmt::Display for ResetRefused {
    ghost output = { λ x. Some (reset_refused_text x.0) };

    fn fmt<W: fmt::Write>(&self, f: &mut fmt::Formatter<W>) -> fmt::Result {
        write!(f, "reset;{}", Refused(self.0))
    }
}
