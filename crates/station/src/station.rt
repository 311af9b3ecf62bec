// A station, over any strategy and any lamp head.
ghost use Rattle.std.specs.Prelude.{◌≡◌, ◌≤◌, List, [], IfOk, length};
ghost use Rattle.loops.specs.Rules.{Second as Readings};
ghost use Rattle.control.specs.Fresh.{fresh};
ghost use Rattle.runlaw.specs.History.{History, Second as SecondAct, Line as LineAct, Reset as ResetAct};
ghost use Rattle.station.specs.Lines.{replied, taken_with};
ghost use Rattle.station.specs.Station.{model, Stands, Lived, GoesOn, Looked, view_of, given_by};
ghost use Rattle.station.specs.Station.{SecondDone, LineDone, ResetDone};
ghost use Rattle.control.specs.Lines.{reply_of, fitted, answered_by, refused_by, answer_to, bytes_of, buffer_after};
ghost use Rattle.control.specs.Phases.{is_tripped};
ghost use Rattle.orders.specs.Orders.{order_of};
ghost use Rattle.lamps.specs.Sets.{lamps_of};

use crate::field::{Field, View};
use crate::second::{
    alarm_of, drive, length_fixed, put_some, stage_after, tell_close, trip_now, wanted_kept,
};
use control::{
    Answer, Command, Conditions, Counts, Queue, Refused, Stage, check_order, in_calendar, is_dark,
    status_letter,
};
use lamps::{LampHead, LampWords};
use loops::PeriodTally;
use orders::{Order, read_order};
use records::{AlarmRecord, PeriodRecord, Ring};
use reply::{cycles_reply, status_reply};
use sheet::{MinuteRange, Sheet};
use strategy::Strategy;

/// A ramp-metering station over any strategy and any lamp head. Its acts are seconds, command lines and breaker resets;
/// the promises hold for every list of them. (docs/RULES.md, "Promises")
#[derive(Drop)]
pub struct Station<S, H> {
    sheet: Sheet,
    strategy: S,
    head: H,
    // the loops: the running interval and period
    tally: PeriodTally,
    // mode, wanted and centre's cycle
    command: Command,
    queue: Queue,
    counts: Counts,
    stage: Stage,
}

impl<S: Strategy, H: LampHead> Station<S, H> {
    /// Opens a station and uses the accepted sheet up. It is in standby and local mode, not wanted, without a centre's
    /// cycle; the head is restored and dark, all counts are 0. (docs/RULES.md, "Accepting a sheet")
    pub fn open(sheet: Sheet, strategy: S, mut head: H) -> Station<S, H>
        ensures sheet { result.sheet ≡ sheet }
        ensures stands { Stands result [] }
        ensures model { model H.LampHead result [] ≡ fresh strategy (H.LampHead.shows head) }
        ensures lived { Lived S.Strategy H.LampHead result strategy [] }
    {
        head.restore();
        let tally = PeriodTally::new(&sheet);
        Station {
            sheet,
            strategy,
            head,
            tally,
            command: Command::default(),
            queue: Queue::default(),
            counts: Counts::default(),
            stage: Stage::Standby,
        }
    }

    /// One second; it never refuses. `minute` may be any number and is taken modulo 10,080. A close of a period puts a
    /// record into `periods`, a trip one into `alarms`. (docs/RULES.md, "One second" and "Records")
    pub fn second(
        &mut self,
        field: Field<'_>,
        minute: u32,
        calendar: &[MinuteRange],
        periods: &mut Ring<'_, PeriodRecord>,
        alarms: &mut Ring<'_, AlarmRecord>,
    ) -> Answer
        ensures sheet { self.new.sheet ≡ self.old.sheet }
        ensures done { (ss : List Readings) → Stands self.old ss →
            SecondDone S.Strategy H.LampHead self.old ss
            (given_by field.entry.presence field.entry.queue_ms field.entry.word
            minute calendar.now field.entry.lanes.now)
            self.new result periods.old periods.new alarms.old alarms.new }
        ensures lived { GoesOn S.Strategy H.LampHead self.old self.new
            (SecondAct
            (given_by field.entry.presence field.entry.queue_ms field.entry.word
            minute calendar.now field.entry.lanes.now)
            result (H.LampHead.colour self.new.head)) }
    {
        let minute = minute % 10_080;
        let before = self.stage;
        let tripped = before.is_tripped();
        let trip = trip_now(tripped, self.head.read(field.word), self.head.ordered());
        let trips = trip.is_some();
        let closed = self.tally.second(field.lanes);
        let period = tell_close(&mut self.strategy, closed, minute, self.counts);
        let queue = self.queue.after(&self.sheet, field.queue_ms);
        let inside = in_calendar(calendar, minute);
        let wanted = self.command.wanted_after(
            &self.sheet,
            before.is_standby(),
            inside,
            self.counts.shown,
        );
        let begins = before.begins_cycle(&self.sheet, wanted);
        let conditions = Conditions {
            wanted,
            full: self.sheet.figures().queue_full_seconds <= queue.over,
            cleared: self.sheet.figures().queue_cleared_seconds <= queue.under,
            presence: field.presence,
            length: length_fixed(begins, self.command.centre_cycle, &self.strategy),
        };
        let stage = stage_after(trips, before, &self.sheet, conditions);
        drive(&mut self.head, trips, tripped, stage.colour());
        put_some(periods, period);
        put_some(alarms, alarm_of(trip, self.counts, before.phase()));
        self.command.wanted = wanted_kept(stage.is_tripped(), self.command.wanted, wanted);
        self.queue = Queue {
            over: queue.over,
            under: stage.under_count(before, queue.under),
        };
        self.counts = self.counts.after(closed.is_some(), stage);
        self.stage = stage;
        let colour = self.head.ordered();
        Answer {
            colour,
            phase: stage.phase(),
            sign: !is_dark(colour),
            trip,
        }
    }

    /// A command line. A status reading writes its answer to the front of the buffer and returns its bytes, 34 at most;
    /// the other lines write nothing and return 0. Refusals 4 to 9 and 11, each with the value that the table of
    /// refusals gives it, alter neither station nor buffer; a buffer of 34 bytes is never too short. (docs/RULES.md,
    /// "Command lines" and "Refusals")
    pub fn line(&mut self, line: &[u8], buffer: &mut [u8]) -> Result<usize, Refused>
        ensures sheet { self.new.sheet ≡ self.old.sheet }
        ensures done { LineDone S.Strategy H.LampHead self.old line.now buffer.old self.new buffer.new result }
        ensures lived { GoesOn S.Strategy H.LampHead self.old self.new
            (LineAct line.now buffer.old buffer.new (replied result buffer.new)
            (H.LampHead.colour self.new.head)) }
        ensures few { IfOk result (λ n. n ≤ 34) }
    {
        let (order, bytes) = self.answer_line(line, buffer)?;
        self.command = self.command.after(order);
        Ok(bytes)
    }

    /// A breaker reset: restores the head and gives standby, local mode, not wanted and no centre's cycle. All else
    /// stays, the counts too, but for the seconds shown since standby. A station that is not tripped refuses it with
    /// `NotTripped`, refusal 10, and is not altered. (docs/RULES.md, "The breaker" and "Where rules left room")
    pub fn reset(&mut self) -> Result<(), Refused>
        ensures sheet { self.new.sheet ≡ self.old.sheet }
        ensures done { ResetDone S.Strategy H.LampHead self.old self.new result }
        ensures lived { GoesOn S.Strategy H.LampHead self.old self.new
            (ResetAct result (H.LampHead.colour self.new.head)) }
    {
        if !self.stage.is_tripped() {
            return Err(Refused::NotTripped);
        }
        self.head.restore();
        self.command = Command::default();
        self.counts.shown = 0;
        self.stage = Stage::Standby;
        Ok(())
    }

    /// What is seen of the station. The contract has the promises over runs for every history that the station lived,
    /// and that what is seen, and what was counted of periods and openings, is what the log of that history has.
    /// (docs/RULES.md, "Promises")
    pub fn look(&self) -> View
        ensures view { result ≡ view_of H.LampHead self.now }
        ensures looked { (s : S) (h : History) → Lived S.Strategy H.LampHead self.now s h →
            Looked S.Strategy H.LampHead self.now result s h }
    {
        View {
            seconds: self.counts.seconds,
            colour: self.head.ordered(),
            phase: self.stage.phase(),
            mode: self.command.mode,
            wanted: self.command.wanted,
            cycle: self.stage.running_cycle(),
        }
    }
}

impl<S, H> Station<S, H> {
    // Writes the reply to an order and returns its bytes; only status readings have one.
    fn reply_to(&self, order: Order, buffer: &mut [u8]) -> Result<usize, Refused>
        ensures count { result ≡
            bytes_of (fitted (length buffer.old) (reply_of self.now.sheet self.now.stage order)) }
        ensures bytes { buffer.new ≡
            buffer_after (fitted (length buffer.old) (reply_of self.now.sheet self.now.stage order)) buffer.old }
        ensures few { IfOk result (λ n. n ≤ 34) }
    {
        match order {
            Order::Status => Ok(status_reply(status_letter(self.stage.phase()), buffer)?),
            Order::Cycles => {
                let window_flash = self.sheet.figures().window_flash;
                Ok(cycles_reply(self.stage.running_cycle(), window_flash, buffer)?)
            }
            Order::Central | Order::Local | Order::Cycle(_) | Order::Off => Ok(0),
        }
    }

    // Writes the reply to an order that is taken and returns its bytes, or says why the order is refused.
    fn answer_order(&self, order: Order, buffer: &mut [u8]) -> Result<usize, Refused>
        ensures count { result ≡ bytes_of (answered_by (length buffer.old)
            (refused_by (is_tripped self.now.stage) self.now.command.mode order)
            (reply_of self.now.sheet self.now.stage order)) }
        ensures bytes { buffer.new ≡ buffer_after (answered_by (length buffer.old)
            (refused_by (is_tripped self.now.stage) self.now.command.mode order)
            (reply_of self.now.sheet self.now.stage order)) buffer.old }
        ensures few { IfOk result (λ n. n ≤ 34) }
    {
        check_order(self.stage.is_tripped(), self.command.mode, order)?;
        self.reply_to(order, buffer)
    }

    /// Reads a line and writes its reply: returns the order that is still to be obeyed, with the bytes of the reply, or
    /// why the line is refused.
    pub(crate) fn answer_line(
        &self,
        line: &[u8],
        buffer: &mut [u8],
    ) -> Result<(Order, usize), Refused>
        ensures taken { result ≡ taken_with (order_of line.now)
            (answer_to self.now.sheet self.now.stage self.now.command.mode
            (length buffer.old) (order_of line.now)) }
        ensures bytes { buffer.new ≡ buffer_after
            (answer_to self.now.sheet self.now.stage self.now.command.mode
            (length buffer.old) (order_of line.now))
            buffer.old }
        ensures few { IfOk result (λ taken. taken.1 ≤ 34) }
    {
        let order = read_order(line)?;
        let bytes = self.answer_order(order, buffer)?;
        Ok((order, bytes))
    }
}

impl<S, H: LampWords> Station<S, H> {
    /// A lamp word that stands for exactly the lamps of the colour that the head means: a second given this word does
    /// not trip. (docs/RULES.md, "Lamp heads")
    pub fn lit_word(&self) -> u32
        ensures { H.LampHead.shows self.now.head result ≡ lamps_of (H.LampHead.colour self.now.head) }
    {
        self.head.word_for(self.head.ordered().lamps())
    }
}
