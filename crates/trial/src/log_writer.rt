// The log of a plan that is played.
ghost use Rattle.std.specs.Prelude.{◌≡◌};
ghost use Rattle.trial.specs.Written.{row_of};

use crate::stop::Stop;
use crate::watching::Watch;
use control::Refused;
use log_rows::{
    AlarmRow, Closing, LineRefused, LineTaken, PeriodRow, ResetRefused, ResetTaken, SecondRow,
    SheetRefused,
};
use observer::Totals;
use replay::{Act, Answered, Outcome, Reply, SecondOutcome};
use sheet::Refusal;
use station::View;
use std::io::{self, Write};

// The row of a second.
fn second_row(outcome: &SecondOutcome, view: View) -> SecondRow
    ensures { result ≡ row_of outcome.now view }
{
    SecondRow {
        number: view.seconds,
        answer: outcome.answer,
        cycle: view.cycle,
    }
}

// The rows of a second: its own, that of the period which it closed, and that of its alarm.
fn write_second<W: Write>(out: &mut W, outcome: &SecondOutcome, view: View) -> io::Result<()> {
    writeln!(out, "{}", second_row(outcome, view))?;
    if let Some(record) = outcome.period {
        writeln!(out, "{}", PeriodRow(record))?;
    }
    if let Some(record) = outcome.alarm {
        writeln!(out, "{}", AlarmRow(record))?;
    }
    Ok(())
}

// The row of a command line.
fn write_line<W: Write>(out: &mut W, answer: &Result<Reply, Refused>) -> io::Result<()> {
    match answer {
        Ok(reply) => writeln!(out, "{}", LineTaken(reply.as_slice())),
        Err(refused) => writeln!(out, "{}", LineRefused(refused.refusal())),
    }
}

/// The row of a breaker reset.
pub(crate) fn write_reset<W: Write>(out: &mut W, answer: &Result<(), Refused>) -> io::Result<()> {
    match answer {
        Ok(()) => writeln!(out, "{ResetTaken}"),
        Err(refused) => writeln!(out, "{}", ResetRefused(refused.refusal())),
    }
}

/// The rows of an act.
pub(crate) fn write_answered<W: Write>(out: &mut W, answered: &Answered) -> io::Result<()> {
    match &answered.outcome {
        Outcome::Second(outcome) => write_second(out, outcome, answered.view),
        Outcome::Line(result) => write_line(out, result),
        Outcome::Reset(result) => write_reset(out, result),
    }
}

/// The closing row of a run with these totals.
pub(crate) fn write_closing<W: Write>(out: &mut W, totals: Totals) -> io::Result<()> {
    writeln!(out, "{}", Closing(totals))
}

/// The row of a refused sheet.
pub(crate) fn write_refused<W: Write>(out: &mut W, refusal: Refusal) -> io::Result<()> {
    writeln!(out, "{}", SheetRefused(refusal))
}

/// Writes the log here, row by row (docs/TRIAL.md, "The log").
#[derive(Drop)]
pub(crate) struct LogWriter<W>(pub(crate) W);

impl<W: Write> Watch for LogWriter<W> {
    fn answered(&mut self, _act: &Act<'_>, answered: &Answered) -> Result<(), Stop> {
        Ok(write_answered(&mut self.0, answered)?)
    }

    fn closed(&mut self, totals: Totals) -> Result<(), Stop> {
        Ok(write_closing(&mut self.0, totals)?)
    }

    fn refused(&mut self, refusal: Refusal) -> Result<(), Stop> {
        Ok(write_refused(&mut self.0, refusal)?)
    }

    fn flush(&mut self) -> Result<(), Stop> {
        Ok(self.0.flush()?)
    }
}
