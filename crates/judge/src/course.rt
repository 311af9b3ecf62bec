// The course of a run: what the run law goes by in each second of its log.
ghost use Rattle.std.specs.Prelude.{◌≡◌, ◌<◌, not, ◌&&◌, ◌||◌, [], ◌∷◌, Decides, length};
ghost use Rattle.runlaw.specs.Log.{Log, Row, in_metering, row};
ghost use Rattle.runlaw.specs.RunLaw.{Darkness, is_red};
ghost use Rattle.judge.specs.Breach.{Keeps};
ghost use Rattle.judge.specs.Course.{course_of};

use crate::aspect::Aspect;
use crate::clock::Clock;
use crate::spell::Spell;
use crate::stretch::Stretch;
use crate::verdict::Kept;
use crate::wait::Wait;
use control::is_dark;
use lamps::Colour;
use records::{Phase, count_after};
use sheet::Sheet;

/// What a log and its plan tell of a second.
#[derive(Clone, Copy)]
pub(crate) struct Shown {
    pub(crate) aspect: Aspect,
    /// Whether the second tripped the station.
    pub(crate) trips: bool,
    /// Whether a vehicle stood at the line.
    pub(crate) presence: bool,
}

impl Shown {
    // Whether it is a metering second: no trip, and phase metering in it or in the second before.
    fn is_metering(self, before: Aspect) -> bool
        ensures { result ≡ (not self.trips && (in_metering self.aspect.phase || in_metering before.phase)) }
    {
        !self.trips && (self.aspect.is_metering() || before.is_metering())
    }

    // Whether it is a second of a wait: metered red with a vehicle at the line.
    fn is_of_wait(self) -> bool
        ensures { result ≡ (is_red self.aspect.colour && in_metering self.aspect.phase && self.presence) }
    {
        self.aspect.is_metered_red() && self.presence
    }

    // Whether a trip stands after it: its own, or one that stood before and that no breaker reset has ended.
    fn leaves_trip(self, reset: bool, stood: bool) -> bool
        ensures { result ≡ (self.trips || (not reset && stood)) }
    {
        self.trips || (!reset && stood)
    }
}

/// What the run law goes by after the newest second.
#[derive(Clone, Copy)]
pub(crate) struct Course {
    pub(crate) aspect: Aspect,
    pub(crate) clock: Clock,
    pub(crate) stretch: Stretch,
    pub(crate) spell: Spell,
    pub(crate) wait: Wait,
    /// Whether there was a trip that no breaker reset had ended by the newest second.
    pub(crate) trip_stands: bool,
    /// The number of the newest second, 0 before the first.
    pub(crate) seconds: u32,
}

impl Course {
    /// The course before the first second: dark and standby, as a fresh station is.
    pub(crate) fn new() -> Course
        ensures { result ≡ course_of [] }
    {
        Course {
            aspect: Aspect {
                colour: Colour::Dark,
                phase: Phase::Standby,
            },
            clock: Clock::default(),
            stretch: Stretch::default(),
            spell: Spell::default(),
            wait: Wait::default(),
            trip_stands: false,
            seconds: 0,
        }
    }

    /// The course after one second more, where `reset` says that a breaker reset was taken since the second before, and
    /// `next_cycle` is the length in seconds of a reference cycle that begins in it.
    pub(crate) fn after(self, shown: Shown, reset: bool, next_cycle: u32) -> Course
        ensures { (rs : Log) → length rs < 4294967295 → self ≡ course_of rs →
            result ≡ course_of
            (row shown.aspect.colour shown.aspect.phase shown.trips shown.presence reset next_cycle rs ∷ rs) }
    {
        let aspect = shown.aspect;
        let metering = shown.is_metering(self.aspect);
        let opens = aspect.opens(self.aspect);
        let begins = self.clock.begins(metering);
        let clock = self.clock.after(metering, next_cycle);
        Course {
            aspect,
            clock,
            stretch: self.stretch.after(self.aspect, aspect.colour),
            spell: self.spell.after(metering, opens, begins),
            wait: self.wait.after(shown.is_of_wait(), clock.cycle),
            trip_stands: shown.leaves_trip(reset, self.trip_stands),
            seconds: count_after(self.seconds),
        }
    }

    // Whether the newest second is dark, if a trip stands; else true.
    fn is_dark_if_tripped(self) -> bool
        ensures { (rs : Log) → self ≡ course_of rs → Decides result (Darkness rs) }
    {
        !self.trip_stands || is_dark(self.aspect.colour)
    }

    /// Which parts of the run law the newest second keeps; `before` is the course before it, and `trips` says that it
    /// trips. (docs/RULES.md, "Promises")
    pub(crate) fn kept(self, before: Course, sheet: &Sheet, trips: bool) -> Kept
        ensures { (r : Row) (rs : Log) → r.trip ≡ trips → before ≡ course_of rs →
            self ≡ course_of (r ∷ rs) → Keeps sheet.now result (r ∷ rs) }
    {
        let succession = before
            .stretch
            .may_precede(sheet, before.aspect.colour, self.aspect.colour, trips);
        Kept {
            succession,
            darkness: self.is_dark_if_tripped(),
            openings: self.spell.is_paced(),
            waits: self.wait.is_short(sheet),
        }
    }
}
