// The picture of a run, as SVG: colours, acts, presence, queue and reference cycle over the seconds.
use crate::frame::{frame_end, frame_start};
use crate::stop::Stop;
use crate::strip::{Line, Strip};
use crate::watching::Watch;
use lamps::Colour;
use observer::Totals;
use replay::{Act, Answered, Outcome, SecondAct, SecondOutcome};
use sheet::Refusal;
use station::View;
use std::alloc::Global;
use std::io::{self, Write};

/// What is drawn of the seconds so far, and where the picture goes once their number is known.
#[derive(Drop)]
pub(crate) struct Picture<W> {
    seconds: u64,
    colours: Strip,
    marks: Vec<u8>,
    presence: Strip,
    queue: Line,
    cycle: Line,
    out: W,
}

// The fill of a colour's stretch.
fn fill(colour: Colour) -> &'static str {
    match colour {
        Colour::Dark => "#555",
        Colour::Red => "#d22",
        Colour::FixedAmber => "#e80",
        Colour::FlashingAmber => "#fd5",
    }
}

// The fill of a stretch with a vehicle at the line, or without one.
fn presence_fill(presence: bool) -> &'static str {
    if presence { "#36a" } else { "none" }
}

// The colour of the mark of an act that can be refused.
fn mark(taken: bool) -> &'static str {
    if taken { "#36a" } else { "#d22" }
}

impl<W: Write + Drop> Picture<W> {
    /// The picture of a run that has not begun.
    pub(crate) fn new(heap: Global, out: W) -> Picture<W> {
        Picture {
            seconds: 0,
            colours: Strip::new(heap, 0, 50),
            marks: Vec::new(heap),
            presence: Strip::new(heap, 130, 16),
            queue: Line::new(heap, 230, 70, 1_000),
            cycle: Line::new(heap, 330, 80, 120),
            out,
        }
    }

    // Draws a mark of this colour from a height down, at the moment.
    fn mark(&mut self, top: u32, height: u32, colour: &str) -> io::Result<()> {
        let at = self.seconds;
        writeln!(
            self.marks,
            "<path d=\"M{at} {top}v{height}\" stroke=\"{colour}\"/>"
        )
    }

    // A second: what was given, and what it answered.
    fn second(
        &mut self,
        second: &SecondAct<'_>,
        outcome: &SecondOutcome,
        view: View,
    ) -> io::Result<()> {
        let at = self.seconds;
        self.colours.second(at, fill(view.colour))?;
        self.presence.second(at, presence_fill(second.presence))?;
        self.queue.second(at, second.queue_ms)?;
        self.cycle.second(at, view.cycle)?;
        self.seconds = at.saturating_add(1);
        if outcome.alarm.is_some() {
            self.mark(56, 20, "#000")?;
        }
        if outcome.period.is_some() {
            self.mark(104, 16, "#888")?;
        }
        Ok(())
    }
}

// Writes the course of a value over so many seconds, from its place at the bottom.
fn write_course<W: Write>(
    out: &mut W,
    bottom: u32,
    path: &[u8],
    seconds: u64,
    colour: &str,
) -> io::Result<()> {
    write!(out, "<path d=\"M0 {bottom}")?;
    out.write_all(path)?;
    writeln!(out, "H{seconds}\" stroke=\"{colour}\"/>")
}

impl<W: Write + Drop> Watch for Picture<W> {
    fn answered(&mut self, act: &Act<'_>, answered: &Answered) -> Result<(), Stop> {
        match (act, &answered.outcome) {
            (Act::Second(second), Outcome::Second(outcome)) => {
                self.second(second, outcome, answered.view)?;
            }
            (_, Outcome::Line(reply)) => self.mark(80, 16, mark(reply.is_ok()))?,
            (_, Outcome::Reset(reset)) => self.mark(56, 20, mark(reset.is_ok()))?,
            _ => {}
        }
        Ok(())
    }

    fn closed(&mut self, _totals: Totals) -> Result<(), Stop> {
        let at = self.seconds;
        self.colours.end(at)?;
        self.presence.end(at)?;
        frame_start(&mut self.out, at)?;
        self.out.write_all(self.colours.shapes.as_slice())?;
        self.out.write_all(self.presence.shapes.as_slice())?;
        self.out.write_all(self.marks.as_slice())?;
        write_course(&mut self.out, 230, self.queue.path.as_slice(), at, "#36a")?;
        write_course(&mut self.out, 330, self.cycle.path.as_slice(), at, "#063")?;
        Ok(frame_end(&mut self.out, at)?)
    }

    fn refused(&mut self, refusal: Refusal) -> Result<(), Stop> {
        Err(Stop::NothingPlayed(refusal.number, refusal.figure))
    }

    fn flush(&mut self) -> Result<(), Stop> {
        Ok(self.out.flush()?)
    }
}
