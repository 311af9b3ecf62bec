// A plan from its first row to its last.
ghost use Rattle.trial.specs.Told.{ToldBy};

use crate::lines::turns;
use crate::rows::Rows;
use crate::stop::Stop;
use plan::{Reader, Row, SecondRow, command_text};
use replay::{Act, LineAct, Misplaced, Opening, SecondAct, Setup, Slot};
use sheet::{Draft, Sheet};
use std::alloc::Global;
use std::io::Read;

/// What the acts of a plan are given to, one by one, until they end.
pub(crate) trait Player {
    /// The next act.
    fn act(&mut self, act: Act<'_>) -> Result<(), Stop>;

    /// There are no further acts.
    fn end(&mut self) -> Result<(), Stop>;

    /// Writes out what is still held back. It is called behind the last act, also after a fault.
    fn flush(&mut self) -> Result<(), Stop>;
}

/// A plan up to its first act: what a station is opened with, and that act.
#[derive(Drop)]
pub(crate) struct Start {
    pub(crate) opening: Opening,
    pub(crate) first: Row,
}

/// A plan that is read row by row.
#[derive(Drop)]
pub(crate) struct Plan<R> {
    rows: Rows<R>,
}

// Accepts the figures of a sheet, or says why they are refused.
fn accepted(figures: [u32; 22]) -> Result<Sheet, Stop> {
    Draft::new(figures)
        .accept()
        .map_err(|refused| Stop::SheetRefused(refused.cause.refusal()))
}

// The act of the second that was read last, with the calendar at the moment.
fn second_act<'a>(row: &SecondRow, reader: &'a Reader) -> SecondAct<'a>
    ensures { ToldBy row.now reader.now result }
{
    SecondAct {
        presence: row.presence,
        queue_ms: row.queue_ms,
        word: row.word,
        minute: row.minute,
        calendar: reader.calendar(),
        lanes: reader.lanes(),
    }
}

impl<R: Read + Drop> Plan<R> {
    /// The plan that is read from here.
    pub(crate) fn new(heap: Global, from: R) -> Result<Plan<R>, Stop> {
        Ok(Plan {
            rows: Rows::new(heap, from)?,
        })
    }

    /// Whether no row has been read.
    pub(crate) fn is_fresh(&self) -> bool {
        self.rows.is_fresh()
    }

    // Refuses a row of a kind that the plan has had.
    fn expect(&self, setup: &Setup, slot: Slot) -> Result<(), Stop> {
        setup
            .expect(slot)
            .map_err(|fault| self.rows.malformed(fault))
    }

    // Takes a row before the first act, and returns it where it is an act.
    fn prepare(&mut self, setup: &mut Setup, row: Row) -> Result<Option<Row>, Stop> {
        match row {
            Row::Blank | Row::Calendar => {}
            Row::Sheet(figures) => {
                self.expect(setup, Slot::Sheet)?;
                setup.set_sheet(accepted(figures)?);
            }
            Row::Strategy(strategy) => {
                self.expect(setup, Slot::Strategy)?;
                setup.set_strategy(strategy);
            }
            Row::Head(head) => {
                self.expect(setup, Slot::Head)?;
                setup.set_head(head);
            }
            act => return Ok(Some(act)),
        }
        Ok(None)
    }

    // Reads up to the first act, if there is one.
    fn first_act(&mut self, setup: &mut Setup) -> Result<Option<Row>, Stop> {
        for _ in turns() {
            if !self.rows.advance()? {
                break;
            }
            match self.rows.read() {
                Ok(row) => {
                    if let Some(act) = self.prepare(setup, row)? {
                        return Ok(Some(act));
                    }
                }
                Err(fault) => return Err(self.rows.malformed(fault)),
            }
        }
        Ok(None)
    }

    /// Reads up to the first act: what stands before it, and the act; nothing where the plan has no act.
    pub(crate) fn start(&mut self) -> Result<Option<Start>, Stop> {
        let mut setup = Setup::new();
        match self.first_act(&mut setup)? {
            Some(first) => {
                let opening = setup.open().map_err(|fault| self.rows.malformed(fault))?;
                Ok(Some(Start { opening, first }))
            }
            None => Ok(None),
        }
    }

    // The end of the run at a row that has to stand before the first act.
    fn too_late(&self, slot: Slot) -> Stop {
        self.rows.malformed(Misplaced::Again(slot))
    }

    // What a row does once the acts have begun.
    fn do_row<P: Player>(&mut self, player: &mut P, row: &Row) -> Result<(), Stop> {
        match row {
            Row::Blank | Row::Calendar => Ok(()),
            Row::Second(second) => player.act(Act::Second(second_act(second, self.rows.reader()))),
            Row::Seconds { count, second } => {
                let act = Act::Second(second_act(second, self.rows.reader()));
                for _ in 0..*count {
                    player.act(act)?;
                }
                Ok(())
            }
            Row::Line { buffer } => player.act(Act::Line(LineAct {
                text: command_text(self.rows.text()),
                room: *buffer as usize,
            })),
            Row::Reset => player.act(Act::Reset),
            Row::Sheet(_) => Err(self.too_late(Slot::Sheet)),
            Row::Strategy(_) => Err(self.too_late(Slot::Strategy)),
            Row::Head(_) => Err(self.too_late(Slot::Head)),
        }
    }

    // Plays the acts of the plan, from the first on.
    fn play_acts<P: Player>(&mut self, player: &mut P, first: &Row) -> Result<(), Stop> {
        self.do_row(player, first)?;
        for _ in turns() {
            if !self.rows.advance()? {
                break;
            }
            match self.rows.read() {
                Ok(row) => self.do_row(player, &row)?,
                Err(fault) => return Err(self.rows.malformed(fault)),
            }
        }
        player.end()
    }

    /// Plays the acts of the plan, from the first on. What was written before a fault stays written.
    pub(crate) fn play<P: Player + Drop>(
        &mut self,
        mut player: P,
        first: &Row,
    ) -> Result<(), Stop> {
        let played = self.play_acts(&mut player, first);
        player.flush()?;
        played
    }
}
