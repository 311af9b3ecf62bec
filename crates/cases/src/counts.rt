// The counts of a station after a second, and of a ring after a put: each stops at 4,294,967,295.
use crate::tables::gives;
use control::{Counts, Stage};
use records::count_after;

const MOST: u32 = 4_294_967_295;

// The seconds, periods, openings and shown seconds after a second of this phase, which closed a period or did not,
// where all four counts had this value before.
fn counts_after(count: u32, closed: bool, stage: Stage) -> (u32, u32, u32, u32) {
    let before = Counts {
        seconds: count,
        periods: count,
        openings: count,
        shown: count,
    };
    let after = before.after(closed, stage);
    (after.seconds, after.periods, after.openings, after.shown)
}

// Counts of puts, and what one more makes of them, worked out by hand from the rule that a count stops at its highest.
const PUTS: [(u32, u32); 5] = [
    (0, 1),
    (1, 2),
    (4_294_967_293, 4_294_967_294),
    (4_294_967_294, 4_294_967_295),
    (4_294_967_295, 4_294_967_295),
];

#[test]
fn counts(rt: HostRuntime) {
    // Worked out by hand from the rule of a second's counts: draining opens nothing, and standby shows nothing.
    assert_eq!(rt; counts_after(7, false, Stage::Draining), (8, 7, 7, 8));
    assert_eq!(rt;
        counts_after(MOST, true, Stage::Draining),
        (MOST, MOST, 0, MOST)
    );
    assert_eq!(rt;
        counts_after(MOST, false, Stage::Standby),
        (MOST, MOST, MOST, 0)
    );
    assert_eq!(rt;
        counts_after(MOST, false, Stage::Tripped),
        (MOST, MOST, MOST, MOST)
    );
    gives(&rt, |put| count_after(put), &PUTS);
}
