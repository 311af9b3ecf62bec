// A recorded log, judged by the run law: the plan tells what each act was given, the log what it answered.
use crate::lines::{Lines, turns};
use crate::log_writer::write_reset;
use crate::playing::{Plan, Player, Start};
use crate::stop::Stop;
use control::Refused;
use judge::{Judge, Seen, Verdict};
use log_rows::{LineRefused, LineTaken, ResetRefused, ResetTaken};
use plan::{RecordedRow, RecordedSecond, read_recorded, without_end};
use replay::{Act, LineAct, Opening, SecondAct};
use std::alloc::Global;
use std::io::{self, Read, Write};
use strategy::ChosenStrategy;

// How many acts against the rules are told, at most.
const MOST_TOLD: u64 = 10;

// The rows at which the parts of the law were first broken.
#[derive(Clone, Copy, Default)]
struct BreachRows {
    succession: Option<u64>,
    darkness: Option<u64>,
    openings: Option<u64>,
    waits: Option<u64>,
}

// The row of a breach, where there is one: the row told before, or else this one.
fn row_of(told: Option<u64>, breach: Option<u32>, row: u64) -> Option<u64> {
    told.or(breach.map(|_| row))
}

impl BreachRows {
    // The rows with the breaches of this verdict, which was given after this row.
    fn with(self, verdict: Verdict, row: u64) -> BreachRows {
        BreachRows {
            succession: row_of(self.succession, verdict.succession, row),
            darkness: row_of(self.darkness, verdict.darkness, row),
            openings: row_of(self.openings, verdict.openings, row),
            waits: row_of(self.waits, verdict.waits, row),
        }
    }
}

// Tells whether a part of the law is kept, and where it is first broken.
fn tell_part<W: Write>(
    out: &mut W,
    part: &str,
    second: Option<u32>,
    row: Option<u64>,
) -> io::Result<()> {
    match (second, row) {
        (Some(second), Some(row)) => {
            writeln!(out, "{part}: broken, first in second {second}, row {row}")
        }
        _ => writeln!(out, "{part}: kept"),
    }
}

// What a command line is due to answer, as a row.
fn write_line_due<W: Write>(
    out: &mut W,
    due: Result<usize, Refused>,
    buffer: &[u8],
) -> io::Result<()> {
    match due {
        Ok(bytes) => writeln!(out, "{}", LineTaken(&buffer[..bytes.min(buffer.len())])),
        Err(refused) => writeln!(out, "{}", LineRefused(refused.refusal())),
    }
}

/// A recorded log that is being judged, from here on: the row that is due next, the rows of breaches, how many lines
/// and resets were against the rules, and where all this is told.
#[derive(Drop)]
pub(crate) struct Judging<L, W> {
    recorded: Lines<L>,
    due: Vec<u8>,
    rows: BreachRows,
    against: u64,
    out: W,
}

impl<L: Read + Drop, W: Write + Drop> Judging<L, W> {
    /// The recorded log that is read from here, with nothing judged yet. What is found is written to `out`.
    pub(crate) fn new(heap: Global, recorded: L, out: W) -> Result<Judging<L, W>, Stop> {
        Ok(Judging {
            recorded: Lines::new(heap, recorded)?,
            due: Vec::new(heap),
            rows: BreachRows::default(),
            against: 0,
            out,
        })
    }

    // The next recorded act. Rows of other kinds are passed over.
    fn next_act(&mut self) -> Result<Option<RecordedRow>, Stop> {
        for _ in turns() {
            if !self.recorded.advance()? {
                break;
            }
            match read_recorded(self.recorded.row()) {
                Ok(RecordedRow::Other) => {}
                Ok(act) => return Ok(Some(act)),
                Err(fault) => return Err(Stop::Unread(self.recorded.number(), fault)),
            }
        }
        Ok(None)
    }

    // The end at the row read last, where another one was expected.
    fn unlike(&self, expected: &'static str) -> Stop {
        Stop::Recorded(self.recorded.number(), expected)
    }

    // The next recorded act, which has to be a second.
    fn next_second(&mut self) -> Result<RecordedSecond, Stop> {
        match self.next_act()? {
            Some(RecordedRow::Second(second)) => Ok(second),
            _ => Err(self.unlike("the row of a second")),
        }
    }

    // Whether the next recorded act, which has to be a command line, was taken.
    fn next_line(&mut self) -> Result<bool, Stop> {
        match self.next_act()? {
            Some(RecordedRow::Line { taken }) => Ok(taken),
            _ => Err(self.unlike("the row of a command line")),
        }
    }

    // Whether the next recorded act, which has to be a breaker reset, was taken.
    fn next_reset(&mut self) -> Result<bool, Stop> {
        match self.next_act()? {
            Some(RecordedRow::Reset { taken }) => Ok(taken),
            _ => Err(self.unlike("the row of a breaker reset")),
        }
    }

    // Holds the row read last against the one that is due.
    fn hold_due(&mut self) -> Result<(), Stop> {
        let recorded = self.recorded.row();
        let due = without_end(self.due.as_slice());
        if recorded != due {
            if self.against < MOST_TOLD {
                write!(self.out, "row {}: due is ", self.recorded.number())?;
                self.out.write_all(due)?;
                write!(self.out, ", recorded is ")?;
                self.out.write_all(recorded)?;
                writeln!(self.out)?;
            }
            self.against = self.against.saturating_add(1);
        }
        self.due.clear();
        Ok(())
    }

    // Tells the verdict.
    fn tell(&mut self, verdict: Verdict) -> io::Result<()> {
        let rows = self.rows;
        let out = &mut self.out;
        tell_part(out, "succession", verdict.succession, rows.succession)?;
        tell_part(out, "darkness", verdict.darkness, rows.darkness)?;
        tell_part(out, "openings", verdict.openings, rows.openings)?;
        tell_part(out, "waits", verdict.waits, rows.waits)?;
        writeln!(out, "heads: not judged, a log has no colour of the head")?;
        writeln!(out, "lines and resets: {} against the rules", self.against)
    }

    // The end of the log, which has to have no further acts, and the verdict.
    fn end(&mut self, verdict: Verdict, keeps_law: bool) -> Result<(), Stop> {
        if self.next_act()?.is_some() {
            return Err(self.unlike("the end of the acts"));
        }
        self.tell(verdict)?;
        if keeps_law && self.against == 0 {
            Ok(())
        } else {
            Err(Stop::Differs)
        }
    }
}

// A judge, and what it judges.
#[derive(Drop)]
struct Judged<L, W> {
    judge: Judge<ChosenStrategy>,
    judging: Judging<L, W>,
}

impl<L: Read + Drop, W: Write + Drop> Judged<L, W> {
    // A second.
    fn second(&mut self, second: &SecondAct<'_>) -> Result<(), Stop> {
        let RecordedSecond {
            colour,
            phase,
            trips,
        } = self.judging.next_second()?;
        let seen = Seen {
            presence: second.presence,
            minute: second.minute,
            lanes: second.lanes,
            colour,
            phase,
            trips,
        };
        if self.judge.second(seen).is_err() {
            return Err(
                self.judging
                    .unlike("no further second, there are 4294967295"),
            );
        }
        let row = self.judging.recorded.number();
        self.judging.rows = self.judging.rows.with(self.judge.verdict(), row);
        Ok(())
    }

    // A command line.
    fn line(&mut self, line: &LineAct<'_>) -> Result<(), Stop> {
        let taken = self.judging.next_line()?;
        let mut buffer = [0; 1_000];
        let room = line.room.min(1_000);
        let due = self.judge.due_line(line.text, &mut buffer[..room]);
        write_line_due(&mut self.judging.due, due, &buffer[..room])?;
        self.judging.hold_due()?;
        self.judge.line(line.text, taken);
        Ok(())
    }

    // A breaker reset.
    fn reset(&mut self) -> Result<(), Stop> {
        let taken = self.judging.next_reset()?;
        write_reset(&mut self.judging.due, &self.judge.due_reset())?;
        self.judging.hold_due()?;
        self.judge.reset(taken);
        Ok(())
    }
}

impl<L: Read + Drop, W: Write + Drop> Player for Judged<L, W> {
    fn act(&mut self, act: Act<'_>) -> Result<(), Stop> {
        match act {
            Act::Second(second) => self.second(&second),
            Act::Line(line) => self.line(&line),
            Act::Reset => self.reset(),
        }
    }

    fn end(&mut self) -> Result<(), Stop> {
        let verdict = self.judge.verdict();
        self.judging.end(verdict, self.judge.keeps_law())
    }

    fn flush(&mut self) -> Result<(), Stop> {
        Ok(self.judging.out.flush()?)
    }
}

/// Judges the recorded log of a plan, and writes the verdict.
pub(crate) fn judge_plan<R: Read + Drop, L: Read + Drop, W: Write + Drop>(
    mut plan: Plan<R>,
    mut judging: Judging<L, W>,
) -> Result<(), Stop> {
    match plan.start() {
        Ok(Some(Start { opening, first })) => {
            let strategy = opening.new_strategy();
            let Opening { sheet, .. } = opening;
            let judge = Judge::new(sheet, strategy);
            plan.play(Judged { judge, judging }, &first)
        }
        Ok(None) => {
            let judged = judging.end(Verdict::default(), true);
            judging.out.flush()?;
            judged
        }
        Err(Stop::SheetRefused(refusal)) => {
            Err(Stop::NothingPlayed(refusal.number, refusal.figure))
        }
        Err(stop) => Err(stop),
    }
}
