// Periods of lane readings: when they close, and with which flow and occupancy.
use crate::row_macros::lane;
use crate::tables::gives;
use loops::{LaneReading, PeriodTally};
use sheet::Draft;
use std::process::Abort;
use strategy::Measure;

// A close with this measure.
macro_rules! measured {
    ($flow:expr, $occupancy_permille:expr) => {
        Some(Some(Measure {
            flow: $flow,
            occupancy_permille: $occupancy_permille,
        }))
    };
}

// What a second answers: nothing while its period runs, else the measure of the period that it closes, or no measure.
type Answer = Option<Option<Measure>>;

const OPEN: Answer = None;

const NO_MEASURE: Answer = Some(None);

const SOUND: LaneReading = lane!(1, 1, 100);

const UNSOUND: LaneReading = lane!(0, 0, 100);

// A step of a table. It may begin a new tally, with a name and figures 13 to 17 of its sheet (lanes, seconds of an
// interval, intervals of a period, availability and overcount). Or it is so many seconds with the same readings, and
// what the last of them answers: those before it leave the period open.
enum Step {
    Sheet(&'static str, [u32; 5]),
    Seconds(u32, &'static [LaneReading], Answer),
}

// Readings at each limit of their range, and just past it, worked out by hand from the rule of a reading in range.
const RANGES: [(LaneReading, bool); 8] = [
    (lane!(0, 0, 0), true),
    (lane!(20, 20, 1_000), true),
    (lane!(20, 0, 1_000), true),
    (lane!(21, 20, 1_000), false),
    (lane!(20, 21, 1_000), false),
    (lane!(3, 4, 0), false),
    (lane!(4, 3, 0), true),
    (lane!(20, 20, 1_001), false),
];

// Cases one after another, each from its new tally on. Flow and occupancy are worked out by hand from the rules of
// intervals and measures, as the comments say.
const STEPS: [Step; 115] = [
    // One lane and one interval of ten seconds, of which the first alone is at a limit of the readings or past it.
    // 2 + 9 seen; (300 + 900) / 10
    Step::Sheet("all in range", [1, 10, 1, 80, 100]),
    Step::Seconds(1, &[lane!(2, 2, 300)], OPEN),
    Step::Seconds(9, &[SOUND], measured!(11, 120)),
    // 20 + 9 seen
    Step::Sheet("20 seen", [1, 10, 1, 80, 100]),
    Step::Seconds(1, &[lane!(20, 20, 300)], OPEN),
    Step::Seconds(9, &[SOUND], measured!(29, 120)),
    Step::Sheet("21 seen", [1, 10, 1, 80, 100]),
    Step::Seconds(1, &[lane!(21, 21, 300)], OPEN),
    Step::Seconds(9, &[SOUND], NO_MEASURE),
    Step::Sheet("more sound than seen", [1, 10, 1, 80, 100]),
    Step::Seconds(1, &[lane!(2, 3, 300)], OPEN),
    Step::Seconds(9, &[SOUND], NO_MEASURE),
    // (1,000 + 900) / 10
    Step::Sheet("busy throughout", [1, 10, 1, 80, 100]),
    Step::Seconds(1, &[lane!(2, 2, 1_000)], OPEN),
    Step::Seconds(9, &[SOUND], measured!(11, 190)),
    Step::Sheet("busy for more than a second", [1, 10, 1, 80, 100]),
    Step::Seconds(1, &[lane!(2, 2, 1_001)], OPEN),
    Step::Seconds(9, &[SOUND], NO_MEASURE),
    // Of 11 + 9 = 20 seen, 80 in a hundred are 16, and more than 16 must be sound.
    // 7 + 9 sound: 1,600 is not above 1,600
    Step::Sheet("16 of 20", [1, 10, 1, 80, 100]),
    Step::Seconds(1, &[lane!(11, 7, 300)], OPEN),
    Step::Seconds(9, &[SOUND], NO_MEASURE),
    // 8 + 9 sound: 1,700 is above 1,600
    Step::Sheet("17 of 20", [1, 10, 1, 80, 100]),
    Step::Seconds(1, &[lane!(11, 8, 300)], OPEN),
    Step::Seconds(9, &[SOUND], measured!(20, 120)),
    // 0 is not above 0
    Step::Sheet("availability 0, none sound", [1, 10, 1, 0, 100]),
    Step::Seconds(10, &[lane!(1, 0, 100)], NO_MEASURE),
    // 100 is above 0; 10 seen; 1,000 / 10
    Step::Sheet("availability 0, one sound", [1, 10, 1, 0, 100]),
    Step::Seconds(1, &[SOUND], OPEN),
    Step::Seconds(9, &[lane!(1, 0, 100)], measured!(10, 100)),
    // no interval is too bad where nothing was seen: 0 seen; 0 / 10
    Step::Sheet("nothing seen", [1, 10, 1, 99, 100]),
    Step::Seconds(10, &[lane!(0, 0, 0)], measured!(0, 0)),
    // 2 + 9 = 11 seen
    Step::Sheet("flow at the overcount", [1, 10, 1, 80, 11]),
    Step::Seconds(1, &[lane!(2, 2, 300)], OPEN),
    Step::Seconds(9, &[SOUND], measured!(11, 120)),
    Step::Sheet("flow above the overcount", [1, 10, 1, 80, 10]),
    Step::Seconds(1, &[lane!(2, 2, 300)], OPEN),
    Step::Seconds(9, &[SOUND], NO_MEASURE),
    // 10,000 / 10
    Step::Sheet("occupancy 1,000", [1, 10, 1, 80, 100]),
    Step::Seconds(10, &[lane!(1, 1, 1_000)], NO_MEASURE),
    // 9,999 / 10
    Step::Sheet("occupancy 999", [1, 10, 1, 80, 100]),
    Step::Seconds(1, &[lane!(1, 1, 999)], OPEN),
    Step::Seconds(9, &[lane!(1, 1, 1_000)], measured!(10, 999)),
    Step::Sheet("flow, never busy", [1, 10, 1, 80, 100]),
    Step::Seconds(10, &[lane!(1, 1, 0)], NO_MEASURE),
    // 9 / 10 is 0
    Step::Sheet("flow, occupancy rounded to 0", [1, 10, 1, 80, 100]),
    Step::Seconds(1, &[lane!(1, 1, 9)], OPEN),
    Step::Seconds(9, &[lane!(1, 1, 0)], NO_MEASURE),
    // 10 / 10
    Step::Sheet("flow, occupancy 1", [1, 10, 1, 80, 100]),
    Step::Seconds(1, &[lane!(1, 1, 10)], OPEN),
    Step::Seconds(9, &[lane!(1, 1, 0)], measured!(10, 1)),
    // 0 seen; 1,000 / 10
    Step::Sheet("occupancy without flow", [1, 10, 1, 80, 100]),
    Step::Seconds(10, &[UNSOUND], NO_MEASURE),
    // 1 seen; 1,000 / 10
    Step::Sheet("occupancy with one vehicle", [1, 10, 1, 80, 100]),
    Step::Seconds(1, &[SOUND], OPEN),
    Step::Seconds(9, &[UNSOUND], measured!(1, 100)),
    // Lane 1: 10 seen, 2,509 busy, so 250; then 20 seen, 4,050 busy, so 405: flow 30, occupancy 655 / 2, so 327.
    // Lane 2: 10 seen, 1,070 busy, so 107; then 10 seen, 3,340 busy, so 334: flow 20, occupancy 441 / 2, so 220.
    // Together: flow 50, occupancy 547 / 2, so 273.
    Step::Sheet("two lanes", [2, 10, 2, 80, 100]),
    Step::Seconds(9, &[lane!(1, 1, 250), lane!(1, 1, 107)], OPEN),
    Step::Seconds(1, &[lane!(1, 1, 259), lane!(1, 1, 107)], OPEN),
    Step::Seconds(
        10,
        &[lane!(2, 2, 405), lane!(1, 1, 334)],
        measured!(50, 273),
    ),
    // 59 + 19 x 240 = 4,619 busy in 20 seconds: 230.95, so 230. 20 seen.
    Step::Sheet("occupancy rounds down", [1, 20, 1, 80, 100]),
    Step::Seconds(1, &[lane!(1, 1, 59)], OPEN),
    Step::Seconds(19, &[lane!(1, 1, 240)], measured!(20, 230)),
    // Each interval is judged by itself: 8 of 10 sound leave the first invalid, though 28 of 30 are above 80 in a
    // hundred.
    Step::Sheet("one interval invalid", [1, 10, 2, 80, 100]),
    Step::Seconds(8, &[SOUND], OPEN),
    Step::Seconds(2, &[lane!(1, 0, 100)], OPEN),
    Step::Seconds(10, &[lane!(2, 2, 100)], NO_MEASURE),
    // One second with a wrong number of readings leaves a sheet of two lanes without a measure.
    Step::Sheet("no reading", [2, 10, 1, 80, 100]),
    Step::Seconds(4, &[SOUND, SOUND], OPEN),
    Step::Seconds(1, &[], OPEN),
    Step::Seconds(5, &[SOUND, SOUND], NO_MEASURE),
    Step::Sheet("one reading", [2, 10, 1, 80, 100]),
    Step::Seconds(4, &[SOUND, SOUND], OPEN),
    Step::Seconds(1, &[SOUND], OPEN),
    Step::Seconds(5, &[SOUND, SOUND], NO_MEASURE),
    // 10 + 10 seen; 1,000 / 10 for each lane
    Step::Sheet("two readings", [2, 10, 1, 80, 100]),
    Step::Seconds(4, &[SOUND, SOUND], OPEN),
    Step::Seconds(1, &[SOUND, SOUND], OPEN),
    Step::Seconds(5, &[SOUND, SOUND], measured!(20, 100)),
    Step::Sheet("three readings", [2, 10, 1, 80, 100]),
    Step::Seconds(4, &[SOUND, SOUND], OPEN),
    Step::Seconds(1, &[SOUND, SOUND, SOUND], OPEN),
    Step::Seconds(5, &[SOUND, SOUND], NO_MEASURE),
    // A period closes in its last second and not before: intervals x seconds, one seen and 100 busy in each.
    Step::Sheet("1 x 10 seconds", [1, 10, 1, 80, 900]),
    Step::Seconds(10, &[SOUND], measured!(10, 100)),
    Step::Seconds(10, &[SOUND], measured!(10, 100)),
    Step::Sheet("3 x 10 seconds", [1, 10, 3, 80, 900]),
    Step::Seconds(30, &[SOUND], measured!(30, 100)),
    Step::Seconds(30, &[SOUND], measured!(30, 100)),
    Step::Sheet("2 x 13 seconds", [1, 13, 2, 80, 900]),
    Step::Seconds(26, &[SOUND], measured!(26, 100)),
    Step::Seconds(26, &[SOUND], measured!(26, 100)),
    Step::Sheet("15 x 60 seconds", [1, 60, 15, 80, 900]),
    Step::Seconds(900, &[SOUND], measured!(900, 100)),
    Step::Seconds(900, &[SOUND], measured!(900, 100)),
    // Nothing of a period goes over into the next: none, then 20 seen with 2,000 / 10, then 10 seen with 1,000 / 10.
    Step::Sheet("three periods", [1, 10, 1, 80, 100]),
    Step::Seconds(9, &[lane!(5, 5, 500)], OPEN),
    Step::Seconds(1, &[lane!(5, 6, 500)], NO_MEASURE),
    Step::Seconds(10, &[lane!(2, 2, 200)], measured!(20, 200)),
    Step::Seconds(10, &[SOUND], measured!(10, 100)),
    // Lanes with 10, 20, 30 and 40 seen and occupancies 101, 202, 300 and 405.
    // Their means: 101; 303 / 2, so 151; 603 / 3 = 201; 1,008 / 4 = 252.
    Step::Sheet("one lane", [1, 10, 1, 80, 100]),
    Step::Seconds(10, &[lane!(1, 1, 101)], measured!(10, 101)),
    Step::Sheet("means of two lanes", [2, 10, 1, 80, 100]),
    Step::Seconds(
        10,
        &[lane!(1, 1, 101), lane!(2, 2, 202)],
        measured!(30, 151),
    ),
    Step::Sheet("means of three lanes", [3, 10, 1, 80, 100]),
    Step::Seconds(
        10,
        &[lane!(1, 1, 101), lane!(2, 2, 202), lane!(3, 3, 300)],
        measured!(60, 201),
    ),
    Step::Sheet("means of four lanes", [4, 10, 1, 80, 100]),
    Step::Seconds(
        10,
        &[
            lane!(1, 1, 101),
            lane!(2, 2, 202),
            lane!(3, 3, 300),
            lane!(4, 4, 405),
        ],
        measured!(100, 252),
    ),
    // Whichever of the four lanes is unsound, busy without a vehicle, there is no measure.
    Step::Sheet("first lane unsound", [4, 10, 1, 80, 100]),
    Step::Seconds(10, &[UNSOUND, SOUND, SOUND, SOUND], NO_MEASURE),
    Step::Sheet("second lane unsound", [4, 10, 1, 80, 100]),
    Step::Seconds(10, &[SOUND, UNSOUND, SOUND, SOUND], NO_MEASURE),
    Step::Sheet("third lane unsound", [4, 10, 1, 80, 100]),
    Step::Seconds(10, &[SOUND, SOUND, UNSOUND, SOUND], NO_MEASURE),
    Step::Sheet("fourth lane unsound", [4, 10, 1, 80, 100]),
    Step::Seconds(10, &[SOUND, SOUND, SOUND, UNSOUND], NO_MEASURE),
];

// Figures of a sheet, any that are accepted.
const FIGURES: [u32; 22] = [
    1, 60, 5, 10, 3, 3, 3, 300, 10, 200, 10, 5, 1, 10, 1, 80, 100, 70, 250, 180, 900, 600,
];

// A tally before its first second, on a sheet with these figures 13 to 17.
fn tally_on(rt: &impl Abort, chosen: &[u32; 5]) -> PeriodTally {
    let mut figures = FIGURES;
    figures[12..17].copy_from_slice(chosen);
    let sheet = Draft::new(figures)
        .accept()
        .expect(rt, "the draft is accepted");
    PeriodTally::new(&sheet)
}

// The seconds are answered as a step says.
fn answers_are(
    rt: &impl Abort,
    tally: &mut PeriodTally,
    seconds: u32,
    readings: &[LaneReading],
    answer: Answer,
    what: &str,
) {
    for second in 1..=seconds {
        let expected = if second == seconds { answer } else { OPEN };
        assert_eq!(rt; tally.second(readings), expected, "{what}");
    }
}

// The steps are as they say.
fn steps_are(rt: &impl Abort, steps: &[Step]) {
    let mut tally = tally_on(rt, &[1, 10, 1, 80, 100]);
    let mut what = "";
    for step in steps {
        match step {
            Step::Sheet(name, figures) => {
                what = name;
                tally = tally_on(rt, figures);
            }
            Step::Seconds(seconds, readings, answer) => answers_are(
                rt, &mut tally, *seconds, readings, *answer, what,
            ),
        }
    }
}

#[test]
fn periods(rt: HostRuntime) {
    gives(&rt, |reading: LaneReading| reading.is_in_range(), &RANGES);
    steps_are(&rt, &STEPS);
}
