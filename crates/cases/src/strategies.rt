// Strategies told one close after another.
use sheet::{Draft, Sheet};
use std::process::Abort;
use strategy::{Alinea, HourlyPlan, Limiter, Measure, Strategy};

// A close: its minute, the occupancy of its measure if it has one, and the cycle that is asked after it.
type Close = (u32, Option<u32>, u32);

// The first cycle of ALINEA: 36,000 / 6,000.
const FIRST: u32 = 6;

// ALINEA over the sheet below, worked out by hand from its rule.
const ALINEA: [Close; 9] = [
    // 6,000 - 70 * 30 = 3,900: 9.2 rounded up
    (0, Some(230), 10),
    (1, None, 10),
    // 3,900 + 14,000 = 17,900, drawn to 9,000
    (2, Some(0), 4),
    // from the drawn flow: 9,000 - 4,200 = 4,800: 7.5 rounded up
    (3, Some(260), 8),
    // at the critical occupancy it stays
    (4, Some(200), 8),
    // 4,800 - 56,000, drawn to 300
    (5, Some(1_000), 120),
    // 300 + 70 = 370: 97.2 rounded up
    (6, Some(199), 98),
    (7, None, 98),
    // far out of range: drawn to 300 again
    (8, Some(4_294_967_295), 120),
];

// Cycles for the hours of a day, some of them outside 4 to 120.
const HOURS: [u32; 24] = [
    0,
    3,
    4,
    120,
    121,
    4_294_967_295,
    0,
    0,
    0,
    0,
    0,
    0,
    0,
    0,
    0,
    0,
    0,
    0,
    0,
    0,
    0,
    0,
    50,
    60,
];

// The hourly plan of those cycles, worked out by hand: the cycle of the minute's hour, drawn to 4 to 120.
const HOURLY: [Close; 11] = [
    (1_439, None, 60),
    (1_379, Some(500), 50),
    (59, None, 4),
    (60, None, 4),
    (120, None, 4),
    (180, Some(0), 120),
    (299, None, 120),
    (300, None, 120),
    (1_440, None, 4),
    // the last minute of the week: hour 167, the 23rd of its day
    (10_079, None, 60),
    // 71,582,788 hours, the 4th of their day
    (4_294_967_295, None, 120),
];

// A limiter of step 10 over ALINEA, worked out by hand as each limiter below: no cycle is more than a step from the one
// before.
const LIMITED: [Close; 6] = [
    // below: 300, cycle 120
    (0, Some(1_000), 16),
    (1, None, 26),
    // below: 300 + 14,000, drawn to 9,000, cycle 4
    (2, Some(0), 16),
    (3, None, 6),
    (4, None, 4),
    // below: 9,000 - 4,200 = 4,800, cycle 8
    (5, Some(260), 8),
];

// A limiter of step 3 over one of step 10 over ALINEA.
const TWICE_LIMITED: [Close; 4] = [
    // inner 16
    (0, Some(1_000), 9),
    // inner 26
    (1, None, 12),
    // inner 16
    (2, Some(0), 15),
    // inner 6
    (3, None, 12),
];

// A limiter over ALINEA whose step, 0, is drawn to 1.
const SLOW: [Close; 2] = [(0, Some(1_000), 7), (1, None, 8)];

// A limiter over ALINEA whose step, 31, is drawn to 30.
const FAST: [Close; 4] = [
    (0, Some(1_000), 36),
    (1, None, 66),
    (2, None, 96),
    (3, None, 120),
];

// Cycles for the hours of a day, of which one is far longer than the others.
const LONG_HOUR: [u32; 24] = [
    20, 120, 20, 20, 20, 20, 20, 20, 20, 20, 20, 20, 20, 20, 20, 20, 20, 20, 20, 20, 20, 20, 20, 20,
];

// A limiter of step 30 over those hours.
const LIMITED_HOURS: [Close; 5] = [
    (60, None, 50),
    (61, None, 80),
    (119, None, 110),
    (120, None, 80),
    (180, None, 50),
];

// Gain 70, critical occupancy 200, lowest flow 30, highest 900, first 600.
fn sheet(rt: &impl Abort) -> Sheet {
    let draft = Draft::new([
        7, 60, 5, 20, 4, 3, 4, 999, 10, 1, 10, 15, 2, 20, 3, 80, 60, 70, 200, 30, 900, 600,
    ]);
    draft.accept().expect(rt, "the draft is accepted")
}

// The strategy's first cycle, and the cycle after each close; asked again, it answers the same.
fn cycles_are<S: Strategy + Drop>(rt: &impl Abort, mut strategy: S, first: u32, closes: &[Close]) {
    assert_eq!(rt; strategy.ask(), first);
    for (minute, occupancy, cycle) in closes {
        let measure = match *occupancy {
            Some(occupancy_permille) => Some(Measure {
                flow: 1,
                occupancy_permille,
            }),
            None => None,
        };
        strategy.tell(*minute, measure);
        assert_eq!(rt; (strategy.ask(), strategy.ask()), (*cycle, *cycle));
    }
}

#[test]
fn strategies(rt: HostRuntime) {
    let sheet = sheet(&rt);
    cycles_are(&rt, Alinea::new(&sheet), FIRST, &ALINEA);
    // hour 0, and 0 drawn to 4
    cycles_are(&rt, HourlyPlan::new(HOURS), 4, &HOURLY);
    let limited = Limiter::new(Alinea::new(&sheet), 10);
    cycles_are(&rt, limited, FIRST, &LIMITED);
    let inner = Limiter::new(Alinea::new(&sheet), 10);
    cycles_are(&rt, Limiter::new(inner, 3), FIRST, &TWICE_LIMITED);
    let slow = Limiter::new(Alinea::new(&sheet), 0);
    cycles_are(&rt, slow, FIRST, &SLOW);
    let fast = Limiter::new(Alinea::new(&sheet), 31);
    cycles_are(&rt, fast, FIRST, &FAST);
    let limited = Limiter::new(HourlyPlan::new(LONG_HOUR), 30);
    cycles_are(&rt, limited, 20, &LIMITED_HOURS);
}
