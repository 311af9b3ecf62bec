// The parts of a station's second. (docs/RULES.md, "One second")
ghost use Rattle.std.specs.Prelude.{◌≡◌, ◌||◌, if◌then◌else◌, None};
ghost use Rattle.std.specs.Option.{option_map};
ghost use Rattle.lamps.specs.Orders.{colour_after};
ghost use Rattle.lamps.specs.declared.colour.Colour.TheVariants.{Dark};
ghost use Rattle.control.specs.declared.stage.Stage.TheVariants.{Tripped};
ghost use Rattle.control.specs.Seconds.{period_record_of, alarm_record_of, length_fixed, told_at};
ghost use Rattle.control.specs.Steps.{stepped};
ghost use Rattle.control.specs.Trips.{trip_of};
ghost use Rattle.station.specs.Parts.{PutInto};

use control::{Conditions, Counts, Stage, Trip, trip_of};
use lamps::{Colour, LampHead, LampSet};
use records::{AlarmRecord, PeriodRecord, Phase, Ring, count_after};
use sheet::Sheet;
use strategy::{Measure, Strategy};

/// The trip of a second in which this set of lamps is lit and this colour is ordered; none if the station is tripped
/// already.
pub(crate) fn trip_now(tripped: bool, lit: LampSet, colour: Colour) -> Option<Trip>
    ensures { result ≡ (if tripped then None else trip_of lit colour) }
{
    if tripped { None } else { trip_of(lit, colour) }
}

/// If a period closed, tells the strategy its measure or none and returns the period record, which has the strategy's
/// cycle after that. `counts` are those before the second. (docs/RULES.md, "Records")
pub(crate) fn tell_close<S: Strategy>(
    strategy: &mut S,
    closed: Option<Option<Measure>>,
    minute: u32,
    counts: Counts,
) -> Option<PeriodRecord>
    ensures told { strategy.new ≡ told_at S.Strategy strategy.old minute closed }
    ensures record { result ≡ option_map
        (period_record_of minute (S.Strategy.cycle (told_at S.Strategy strategy.old minute closed)) counts)
        closed }
{
    let measure = closed?;
    strategy.tell(minute, measure);
    Some(PeriodRecord {
        number: count_after(counts.periods),
        minute,
        measure,
        cycle: strategy.ask(),
        openings: counts.openings,
    })
}

/// The alarm record of a trip, if there is one; `counts` and `phase` are those before the second.
/// (docs/RULES.md, "Records")
pub(crate) fn alarm_of(trip: Option<Trip>, counts: Counts, phase: Phase) -> Option<AlarmRecord>
    ensures { result ≡ option_map (alarm_record_of counts phase) trip }
{
    let Trip { code, lamp } = trip?;
    Some(AlarmRecord {
        second: count_after(counts.seconds),
        code,
        lamp,
        phase,
    })
}

/// Puts the record into the ring, if there is one.
pub(crate) fn put_some<T: Copy>(ring: &mut Ring<'_, T>, element: Option<T>)
    ensures { PutInto ring.old ring.new element }
{
    if let Some(x) = element {
        ring.put(x);
    }
}

/// The length in seconds of a reference cycle that begins in this second: the centre's cycle if set, else the
/// strategy's; 0 where none begins. (docs/RULES.md, "Metering")
pub(crate) fn length_fixed<S: Strategy>(
    begins: bool,
    centre_cycle: Option<u32>,
    strategy: &S,
) -> u32
    ensures { result ≡ (if begins then length_fixed centre_cycle (S.Strategy.cycle strategy.now) else 0) }
{
    match centre_cycle {
        _ if !begins => 0,
        Some(cycle) => cycle,
        None => strategy.ask(),
    }
}

/// The phase of a second that trips or does not, after one in phase `stage`.
pub(crate) fn stage_after(trips: bool, stage: Stage, sheet: &Sheet, conditions: Conditions) -> Stage
    ensures { result ≡ (if trips then Tripped else stepped sheet.now conditions stage) }
{
    if trips {
        Stage::Tripped
    } else {
        stage.after(sheet, conditions)
    }
}

/// What a second does to the lamp head: a trip cuts it, a station tripped before leaves it, any other orders the colour
/// of its phase.
pub(crate) fn drive<H: LampHead>(head: &mut H, trips: bool, tripped: bool, chosen: Colour)
    ensures colour { H.LampHead.colour head.new ≡ (if trips then Dark else
        (if tripped then H.LampHead.colour head.old else
        colour_after (H.LampHead.is_cut head.old) (H.LampHead.colour head.old) chosen)) }
    ensures is_cut { H.LampHead.is_cut head.new ≡ (trips || H.LampHead.is_cut head.old) }
    ensures shows { H.LampHead.shows head.new ≡ H.LampHead.shows head.old }
{
    if trips {
        head.cut();
    } else if !tripped {
        head.order(chosen);
    }
}

/// Whether metering is wanted after a second: `wanted`, but what it was `before` if the station is tripped.
pub(crate) fn wanted_kept(tripped: bool, before: bool, wanted: bool) -> bool
    ensures { result ≡ (if tripped then before else wanted) }
{
    if tripped { before } else { wanted }
}
