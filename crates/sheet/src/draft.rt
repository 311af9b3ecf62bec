// The draft of a station's sheet, accepting it, and the causes for which it is refused.
ghost use Rattle.std.specs.Prelude.{◌≡◌};
ghost use Rattle.sheet.specs.Draft.{figures_of};
ghost use Rattle.sheet.specs.Causes.{refusal_of};

use crate::limits::check;
use crate::sheet::Sheet;

/// A station's 22 figures, of any value. The limits named at the figures are those that `accept` holds them against.
/// (docs/RULES.md, "The sheet of figures")
#[derive(Debug, Drop)]
pub struct Draft {
    /// Number of the station, 1 to 9,999 (figure 1).
    pub station: u32,
    /// Flashing amber when service begins, 30 to 300 seconds (figure 2, T1).
    pub opening_flash: u32,
    /// Red before metering, 1 to 30 seconds (figure 3, T2).
    pub opening_red: u32,
    /// Flashing amber when service ends, 5 to 120 seconds (figure 4, T3).
    pub closing_flash: u32,
    /// Flashing amber of a window, 2 to 10 seconds (figure 5, JC).
    pub window_flash: u32,
    /// Fixed amber of a window, 3 to 5 seconds (figure 6, JF).
    pub window_amber: u32,
    /// Shortest red between windows, 2 to 30 seconds (figure 7, RM).
    pub minimum_red: u32,
    /// Occupancy of the queue loop above which the queue is full, 1 to 999 per mille (figure 8, TO1).
    pub queue_full: u32,
    /// Seconds for which the queue has to be full before draining begins, 1 to 120 (figure 9, t1).
    pub queue_full_seconds: u32,
    /// Occupancy of the queue loop below which the queue is cleared, 1 to 999 per mille (figure 10, TO2).
    pub queue_cleared: u32,
    /// Seconds for which the queue has to be cleared before draining ends, 1 to 120 (figure 11, t2).
    pub queue_cleared_seconds: u32,
    /// Shortest service in local mode, 0 to 240 minutes (figure 12, X).
    pub service_minutes: u32,
    /// Motorway lanes with a loop, 1 to 4 (figure 13).
    pub lanes: u32,
    /// Seconds in an interval, 10 to 60 (figure 14, i).
    pub interval_seconds: u32,
    /// Intervals in a period, 1 to 15 (figure 15, n).
    pub period_intervals: u32,
    /// Share of sound vehicles that an interval has to exceed, 0 to 99 percent (figure 16).
    pub availability: u32,
    /// Most vehicles of a lane in a period, 1 to 2,000 (figure 17).
    pub overcount: u32,
    /// ALINEA's gain, 1 to 200 vehicles per hour per percent (figure 18, β).
    pub gain: u32,
    /// Occupancy that ALINEA steers to, 1 to 999 per mille (figure 19, Tcr).
    pub critical_occupancy: u32,
    /// Lowest flow that ALINEA orders, 30 to 900 vehicles per hour (figure 20, qmin).
    pub lowest_flow: u32,
    /// Highest flow that ALINEA orders, 30 to 900 vehicles per hour (figure 21, qmax).
    pub highest_flow: u32,
    /// Flow with which ALINEA begins, 30 to 900 vehicles per hour (figure 22, q0).
    pub first_flow: u32,
}

impl Draft {
    ghost use Rattle.sheet.specs.Causes.{refusal_due};
    ghost use Rattle.sheet.specs.Judged.{Judged, refusal_in};

    /// The draft with these figures in the order of their numbers, the station's number first.
    pub fn new(figures: [u32; 22]) -> Draft
        ensures { figures_of result ≡ figures }
    {
        let [
            station,
            opening_flash,
            opening_red,
            closing_flash,
            window_flash,
            window_amber,
            minimum_red,
            queue_full,
            queue_full_seconds,
            queue_cleared,
            queue_cleared_seconds,
            service_minutes,
            lanes,
            interval_seconds,
            period_intervals,
            availability,
            overcount,
            gain,
            critical_occupancy,
            lowest_flow,
            highest_flow,
            first_flow,
        ] = figures;
        Draft {
            station,
            opening_flash,
            opening_red,
            closing_flash,
            window_flash,
            window_amber,
            minimum_red,
            queue_full,
            queue_full_seconds,
            queue_cleared,
            queue_cleared_seconds,
            service_minutes,
            lanes,
            interval_seconds,
            period_intervals,
            availability,
            overcount,
            gain,
            critical_occupancy,
            lowest_flow,
            highest_flow,
            first_flow,
        }
    }

    /// The figures in the order of their numbers, as `new` takes them.
    pub fn figures(&self) -> [u32; 22]
        ensures { result ≡ figures_of self.now }
    {
        [
            self.station,
            self.opening_flash,
            self.opening_red,
            self.closing_flash,
            self.window_flash,
            self.window_amber,
            self.minimum_red,
            self.queue_full,
            self.queue_full_seconds,
            self.queue_cleared,
            self.queue_cleared_seconds,
            self.service_minutes,
            self.lanes,
            self.interval_seconds,
            self.period_intervals,
            self.availability,
            self.overcount,
            self.gain,
            self.critical_occupancy,
            self.lowest_flow,
            self.highest_flow,
            self.first_flow,
        ]
    }

    /// Uses the draft up. Returns an accepted sheet with the same figures, or the draft unaltered with the first cause
    /// that applies. In numbers that is refusal 1 with the figure outside its limits, 2 with figure 10 (TO2 not below
    /// TO1), or 3 with figure 22 (q0 outside qmin to qmax). (docs/RULES.md, "Accepting a sheet" and "Refusals")
    pub fn accept(self) -> Result<Sheet, RefusedDraft>
        ensures judged { Judged self result }
        ensures told { refusal_in result ≡ refusal_due self }
    {
        match check(&self) {
            Ok(()) => Ok(Sheet { draft: self }),
            Err(cause) => Err(RefusedDraft { cause, draft: self }),
        }
    }
}

/// Why a draft is refused. Of several causes the first in the order of the variants is given.
/// (docs/RULES.md, "Accepting a sheet")
#[derive(Clone, Copy, Debug, PartialEq, Eq)]
pub enum Cause {
    /// A figure lies outside its limits: its number, 1 to 22, the lowest number if there are several.
    OutsideLimits(u32),
    /// `queue_cleared` is not below `queue_full` (TO2, TO1).
    ClearedNotBelowFull,
    /// `first_flow` is below `lowest_flow` or above `highest_flow` (q0, qmin, qmax).
    FirstFlowOutside,
}

/// A draft's refusal in the numbers of the rule book. (docs/RULES.md, "Refusals")
#[derive(Clone, Copy, Debug, PartialEq, Eq)]
pub struct Refusal {
    /// Number of the refusal, 1 to 3.
    pub number: u32,
    /// Number of the figure that it names, 1 to 22.
    pub figure: u32,
}

impl Cause {
    /// Refusal 1 with the figure outside its limits, 2 with figure 10, or 3 with figure 22.
    pub fn refusal(self) -> Refusal
        ensures { result ≡ refusal_of self }
    {
        match self {
            Cause::OutsideLimits(figure) => Refusal { number: 1, figure },
            Cause::ClearedNotBelowFull => Refusal {
                number: 2,
                figure: 10,
            },
            Cause::FirstFlowOutside => Refusal {
                number: 3,
                figure: 22,
            },
        }
    }
}

/// A refused draft, handed back with the cause. (docs/RULES.md, "Accepting a sheet")
#[derive(Debug, Drop)]
pub struct RefusedDraft {
    /// The first cause that applies.
    pub cause: Cause,
    /// The draft as it was given.
    pub draft: Draft,
}
