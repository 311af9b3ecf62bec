// A recorded log, held against the log of a plan that is played.
use crate::lines::{Lines, turns};
use crate::log_writer::{write_answered, write_closing, write_refused};
use crate::stop::Stop;
use crate::watching::Watch;
use hold::{Pair, Tally};
use observer::Totals;
use replay::{Act, Answered};
use sheet::Refusal;
use std::alloc::Global;
use std::io::{Read, Write};

// How many differences are told, at most.
const MOST_TOLD: u64 = 10;

/// The recorded log from here on, the rows that are expected next, the tally of both so far, and where differences
/// are written.
#[derive(Drop)]
pub(crate) struct Comparison<L, W> {
    recorded: Lines<L>,
    expected: Vec<u8>,
    tally: Tally,
    out: W,
}

// Tells a row, or that its log has ended.
fn tell<W: Write>(out: &mut W, what: &str, row: Option<&[u8]>) -> Result<(), Stop> {
    write!(out, "  {what}: ")?;
    match row {
        Some(text) => out.write_all(text)?,
        None => write!(out, "nothing, the log has ended")?,
    }
    writeln!(out)?;
    Ok(())
}

// Tells a pair of rows that differ.
fn tell_pair<W: Write>(out: &mut W, number: u64, pair: Pair<'_>) -> Result<(), Stop> {
    writeln!(out, "row {number}:")?;
    tell(out, "expected", pair.expected)?;
    tell(out, "recorded", pair.recorded)
}

// The tally with one pair of rows more. The first pairs that differ are told.
fn tallied<W: Write>(out: &mut W, tally: Tally, pair: Pair<'_>) -> Result<Tally, Stop> {
    if !pair.agrees() && tally.differing < MOST_TOLD {
        let before = tally.agreeing.saturating_add(tally.differing);
        tell_pair(out, before.saturating_add(1), pair)?;
    }
    Ok(tally.with(pair))
}

impl<L: Read + Drop, W: Write + Drop> Comparison<L, W> {
    /// A comparison with the recorded log that is read from here. Differences are written to `out`.
    pub(crate) fn new(heap: Global, recorded: L, out: W) -> Result<Comparison<L, W>, Stop> {
        Ok(Comparison {
            recorded: Lines::new(heap, recorded)?,
            expected: Vec::new(heap),
            tally: Tally::new(),
            out,
        })
    }

    // Holds the rows that are expected now against those that were recorded.
    fn hold(&mut self) -> Result<(), Stop> {
        for expected in self.expected.as_slice().split(|byte| *byte == b'\n') {
            if !expected.is_empty() {
                let there = self.recorded.advance()?;
                let pair = Pair {
                    expected: Some(expected),
                    recorded: there.then_some(self.recorded.row()),
                };
                self.tally = tallied(&mut self.out, self.tally, pair)?;
            }
        }
        self.expected.clear();
        Ok(())
    }

    // Holds what is left of the recorded log against nothing.
    fn hold_rest(&mut self) -> Result<(), Stop> {
        for _ in turns() {
            if !self.recorded.advance()? {
                break;
            }
            let pair = Pair {
                expected: None,
                recorded: Some(self.recorded.row()),
            };
            self.tally = tallied(&mut self.out, self.tally, pair)?;
        }
        Ok(())
    }

    // Holds what is left of the recorded log, and tells how many rows agree and how many differ.
    fn end(&mut self) -> Result<(), Stop> {
        self.hold()?;
        self.hold_rest()?;
        let Tally {
            agreeing,
            differing,
        } = self.tally;
        writeln!(self.out, "{agreeing} rows agree, {differing} differ")?;
        if self.tally.all_agree() {
            Ok(())
        } else {
            Err(Stop::Differs)
        }
    }
}

impl<L: Read + Drop, W: Write + Drop> Watch for Comparison<L, W> {
    fn answered(&mut self, _act: &Act<'_>, answered: &Answered) -> Result<(), Stop> {
        write_answered(&mut self.expected, answered)?;
        self.hold()
    }

    fn closed(&mut self, totals: Totals) -> Result<(), Stop> {
        write_closing(&mut self.expected, totals)?;
        self.end()
    }

    fn refused(&mut self, refusal: Refusal) -> Result<(), Stop> {
        write_refused(&mut self.expected, refusal)?;
        self.end()
    }

    fn flush(&mut self) -> Result<(), Stop> {
        Ok(self.out.flush()?)
    }
}
