// A run of a plan: a station that is driven through acts, and an observer that counts what it does.
ghost use Rattle.std.specs.Prelude.{◌≡◌, length, take, slice_get, ℕ, min, [], drop};
ghost use Rattle.records.specs.Rings.{kept_by};
ghost use Rattle.control.specs.Lines.{buffer_after};
ghost use Rattle.runlaw.specs.History.{History};
ghost use Rattle.replay.specs.Acts.{WordGiven, buffer_for, replied_in, extended};
ghost use Rattle.replay.specs.Played.{SecondPlayed, LinePlayed, RanThrough, ActPlayed, Played, PlayedThrough};
ghost use Rattle.runlaw.specs.Log.{Log, log};
ghost use Rattle.observer.specs.Totals.{observer_of, unless_taken, totals_of, refusals_in};
ghost use Rattle.station.specs.Station.{Looked, view_of};
ghost use Rattle.replay.specs.declared.act.Act.TheVariants.{Second as SecondOf, Line as LineOf, Reset as ResetOf};

use crate::act::{Act, LineAct, SecondAct};
use crate::answered::{Answered, Outcome, Reply, SecondOutcome};
use control::Refused;
use lamps::{Lamp, LampHead, LampWords};
use observer::{Observer, Totals};
use plan::Word;
use records::{AlarmRecord, PeriodRecord, Phase, Ring, TripCode};
use sheet::Sheet;
use station::{Field, Station, View};
use strategy::Strategy;

/// A station that is driven through acts, and an observer beside it that keeps the totals of the run
/// (docs/RULES.md, "Promises").
#[derive(Drop)]
pub struct Run<S, H> {
    station: Station<S, H>,
    observer: Observer,
}

// Fills a ring's place before a period record is put there.
const NO_PERIOD: PeriodRecord = PeriodRecord {
    number: 0,
    minute: 0,
    measure: None,
    cycle: 0,
    openings: 0,
};

// Fills a ring's place before an alarm record is put there.
const NO_ALARM: AlarmRecord = AlarmRecord {
    second: 0,
    code: TripCode::NotLit,
    lamp: Lamp::Red,
    phase: Phase::Standby,
};

// The lamp word that the station is given: the plan's number, or one that stands for the ordered colour's lamps.
fn word_given<S, H: LampWords>(station: &Station<S, H>, word: Word) -> u32
    ensures { WordGiven H.LampHead station.now.head word result }
{
    match word {
        Word::Lit => station.lit_word(),
        Word::Given(word) => word,
    }
}

// The oldest element that a ring keeps, if any. `list` is scratch space and needs at least one place.
fn oldest<T: Copy>(ring: &Ring<'_, T>, list: &mut [T]) -> Option<T>
    ensures { result ≡ slice_get (take (length list.old) (kept_by ring.now)) 0 }
{
    let kept = ring.copy_to(list, 0);
    list[..kept].first().copied()
}

// Plays a second, and returns its answer with the records that it put. The rings have one place each, since a second
// puts at most one record of a kind.
fn do_second<S: Strategy, H: LampWords>(
    station: &mut Station<S, H>,
    second: SecondAct<'_>,
) -> SecondOutcome
    ensures { SecondPlayed S.Strategy H.LampHead station.old second.entry station.new result }
{
    let word = word_given(station, second.word);
    let mut period = [NO_PERIOD];
    let mut alarm = [NO_ALARM];
    let mut periods = Ring::new(&mut period);
    let mut alarms = Ring::new(&mut alarm);
    let field = Field {
        presence: second.presence,
        queue_ms: second.queue_ms,
        word,
        lanes: second.lanes,
    };
    let answer = station.second(
        field,
        second.minute,
        second.calendar,
        &mut periods,
        &mut alarms,
    );
    SecondOutcome {
        word,
        answer,
        period: oldest(&periods, &mut [NO_PERIOD]),
        alarm: oldest(&alarms, &mut [NO_ALARM]),
    }
}

// Gives the station a command line with its answer buffer, and copies the reply.
fn say<S: Strategy, H: LampHead>(
    station: &mut Station<S, H>,
    text: &[u8],
    buffer: &mut [u8],
) -> Result<Reply, Refused>
    ensures played { LinePlayed S.Strategy H.LampHead station.old text.now buffer.old station.new buffer.new result }
    ensures bytes { buffer.new ≡ buffer_after (replied_in result) buffer.old }
{
    let bytes = station.line(text, buffer)?;
    Ok(Reply::of(buffer, bytes))
}

// Plays a command line, with an answer buffer of as many bytes as the plan asks for, at most 1,000.
fn do_line<S: Strategy, H: LampHead>(
    station: &mut Station<S, H>,
    line: LineAct<'_>,
) -> Result<Reply, Refused>
    ensures { LinePlayed S.Strategy H.LampHead station.old line.entry.text.now (buffer_for line.entry)
        station.new (buffer_after (replied_in result) (buffer_for line.entry)) result }
{
    let mut buffer = [0; 1_000];
    let room = line.room.min(1_000);
    say(station, line.text, &mut buffer[..room])
}

// The observer after a command line or a breaker reset, which counts one refusal more unless the act was taken.
fn counted_unless(taken: bool, observer: Observer) -> Observer
    ensures { (rs : Log) (k : ℕ) → observer ≡ observer_of rs k → result ≡ observer_of rs (unless_taken taken k) }
{
    if taken {
        observer
    } else {
        observer.after_refusal()
    }
}

impl<S: Strategy, H: LampWords> Run<S, H> {
    /// A run that has not begun: its station is fresh, and the totals are 0. The sheet is used up
    /// (docs/RULES.md, "Accepting a sheet").
    pub fn open(sheet: Sheet, strategy: S, head: H) -> Run<S, H>
        ensures sheet { result.station.sheet ≡ sheet }
        ensures begun { RanThrough S.Strategy H.LampHead result strategy [] }
    {
        Run {
            station: Station::open(sheet, strategy, head),
            observer: Observer::new(),
        }
    }

    // Plays a second.
    fn second(&mut self, second: SecondAct<'_>) -> Answered
        ensures { ActPlayed S.Strategy H.LampHead self.old (SecondOf second.entry) result self.new }
    {
        let outcome = do_second(&mut self.station, second);
        let view = self.station.look();
        self.observer = self.observer.after_second(
            view.colour,
            outcome.answer.phase,
            outcome.answer.trip.is_some(),
            second.presence,
        );
        Answered {
            outcome: Outcome::Second(outcome),
            view,
        }
    }

    // Plays a command line.
    fn line(&mut self, line: LineAct<'_>) -> Answered
        ensures { ActPlayed S.Strategy H.LampHead self.old (LineOf line.entry) result self.new }
    {
        let result = do_line(&mut self.station, line);
        let view = self.station.look();
        self.observer = counted_unless(result.is_ok(), self.observer);
        Answered {
            outcome: Outcome::Line(result),
            view,
        }
    }

    // Plays a breaker reset.
    fn reset(&mut self) -> Answered
        ensures { ActPlayed S.Strategy H.LampHead self.old ResetOf result self.new }
    {
        let result = self.station.reset();
        let view = self.station.look();
        self.observer = counted_unless(result.is_ok(), self.observer);
        Answered {
            outcome: Outcome::Reset(result),
            view,
        }
    }

    /// Plays one act. A refused act leaves the station as it was and adds 1 to the refusals of the totals
    /// (docs/RULES.md, "Refusals"). Every history that the run went through keeps the promises with this act
    /// (docs/RULES.md, "Promises").
    pub fn act(&mut self, act: Act<'_>) -> Answered
        ensures { ActPlayed S.Strategy H.LampHead self.old act.entry result self.new }
    {
        match act {
            Act::Second(second) => self.second(second),
            Act::Line(line) => self.line(line),
            Act::Reset => self.reset(),
        }
    }

    /// Plays acts in their order until the acts or the places for answers run out, and returns how many it played.
    /// Each answer stands in the place of its act.
    pub fn play(&mut self, acts: &[Act<'_>], answers: &mut [Answered]) -> usize
        ensures count { result ≡ min (length acts.now) (length answers.old) }
        ensures rest { drop result answers.new ≡ drop result answers.old }
        ensures sheet { self.new.station.sheet ≡ self.old.station.sheet }
        ensures played { Played S.Strategy H.LampHead self.old
            (take result acts.now) (take result answers.new) self.new }
        ensures goes_on { (s : S) (h : History) →
            RanThrough S.Strategy H.LampHead self.old s h →
            RanThrough S.Strategy H.LampHead self.new s
            (extended (take result acts.now) (take result answers.new) h) }
    {
        let count = acts.len().min(answers.len());
        // By index, since the prover knows nothing of what is written through `zip` over `iter_mut`.
        for i in 0..count {
            answers[i] = self.act(acts[i]);
        }
        count
    }

    /// What an observer sees of the station now. Every history that the run went through keeps the promises
    /// (docs/RULES.md, "Promises").
    pub fn look(&self) -> View
        ensures view { result ≡ view_of H.LampHead self.now.station }
        ensures looked { (s : S) (h : History) →
            RanThrough S.Strategy H.LampHead self.now s h →
            Looked S.Strategy H.LampHead self.now.station result s h }
    {
        self.station.look()
    }

    /// Opens a run on an accepted sheet, plays acts as `play` does, as many as have a place for their answer, and
    /// looks. Whatever the strategy, and whatever the head that gives lamp words, the promises hold over exactly these
    /// acts with these answers (docs/RULES.md, "Promises").
    pub fn played_through(
        sheet: Sheet,
        strategy: S,
        head: H,
        acts: &[Act<'_>],
        answers: &mut [Answered],
    ) -> (Run<S, H>, View)
        ensures sheet { result.0.station.sheet ≡ sheet }
        ensures rest { let n = min (length acts.now) (length answers.old) in
            drop n answers.new ≡ drop n answers.old }
        ensures played { let n = min (length acts.now) (length answers.old) in
            PlayedThrough S.Strategy H.LampHead sheet strategy
            (take n acts.now) (take n answers.new) result.0 }
        ensures view { result.1 ≡ view_of H.LampHead result.0.station }
        ensures ran { let n = min (length acts.now) (length answers.old) in
            RanThrough S.Strategy H.LampHead result.0 strategy
            (extended (take n acts.now) (take n answers.new) []) }
        ensures looked { let n = min (length acts.now) (length answers.old) in
            Looked S.Strategy H.LampHead result.0.station result.1 strategy
            (extended (take n acts.now) (take n answers.new) []) }
    {
        let mut run = Run::open(sheet, strategy, head);
        run.play(acts, answers);
        let view = run.look();
        (run, view)
    }

    /// The totals of the run so far, as the closing row of its log has them (docs/TRIAL.md, "The log").
    pub fn totals(&self) -> Totals
        ensures { (s : S) (h : History) →
            RanThrough S.Strategy H.LampHead self.now s h →
            result ≡ totals_of (log self.now.station.sheet S.Strategy s h) (refusals_in h) }
    {
        self.observer.totals()
    }
}
