// The accepted sheet, whose type carries the limits of its figures.
ghost use Rattle.std.specs.Prelude.{◌<◌, ◌≤◌, ◌≡◌};
ghost use Rattle.sheet.specs.Limits.{Within};

use crate::draft::Draft;

/// An accepted sheet: each figure lies within its limits, TO2 < TO1, and qmin ≤ q0 ≤ qmax. Only `Draft::accept` makes
/// one. It cannot be copied, and opening a station uses it up. (docs/RULES.md, "Accepting a sheet")
#[derive(Debug, Drop)]
pub struct Sheet {
    /// The draft that was accepted.
    pub(crate) draft: Draft,
    ghost station_within: { Within 1 draft.«station» },
    ghost opening_flash_within: { Within 2 draft.opening_flash },
    ghost opening_red_within: { Within 3 draft.opening_red },
    ghost closing_flash_within: { Within 4 draft.closing_flash },
    ghost window_flash_within: { Within 5 draft.window_flash },
    ghost window_amber_within: { Within 6 draft.window_amber },
    ghost minimum_red_within: { Within 7 draft.minimum_red },
    ghost queue_full_within: { Within 8 draft.queue_full },
    ghost queue_full_seconds_within: { Within 9 draft.queue_full_seconds },
    ghost queue_cleared_within: { Within 10 draft.queue_cleared },
    ghost queue_cleared_seconds_within: { Within 11 draft.queue_cleared_seconds },
    ghost service_minutes_within: { Within 12 draft.service_minutes },
    ghost lanes_within: { Within 13 draft.«lanes» },
    ghost interval_seconds_within: { Within 14 draft.interval_seconds },
    ghost period_intervals_within: { Within 15 draft.period_intervals },
    ghost availability_within: { Within 16 draft.«availability» },
    ghost overcount_within: { Within 17 draft.«overcount» },
    ghost gain_within: { Within 18 draft.«gain» },
    ghost critical_occupancy_within: { Within 19 draft.critical_occupancy },
    ghost lowest_flow_within: { Within 20 draft.lowest_flow },
    ghost highest_flow_within: { Within 21 draft.highest_flow },
    ghost first_flow_within: { Within 22 draft.first_flow },
    ghost cleared_below_full: { draft.queue_cleared < draft.queue_full },
    ghost first_flow_not_below: { draft.lowest_flow ≤ draft.first_flow },
    ghost first_flow_not_above: { draft.first_flow ≤ draft.highest_flow },
}

impl Sheet {
    /// The figures of the accepted draft, to read.
    pub fn figures(&self) -> &Draft
        ensures { result.now ≡ self.now.draft }
    {
        &self.draft
    }
}
