// Rows of a recorded log, well formed and not.
use crate::row_macros::{bad, missing};
use crate::tables::gives;
use lamps::Colour;
use plan::{RecordedRow, RecordedSecond, RowFault, Wanted, read_recorded};
use records::Phase;

// The row of a second.
macro_rules! second {
    ($colour:ident, $phase:ident, $trips:expr) => {
        Ok(RecordedRow::Second(RecordedSecond {
            colour: Colour::$colour,
            phase: Phase::$phase,
            trips: $trips,
        }))
    };
}

// Rows, and what each is read as, worked out by hand from the format of logs.
const ROWS: [(&[u8], Result<RecordedRow, RowFault>); 21] = [
    (
        b"second;1;dark;standby;off;;0",
        second!(Dark, Standby, false),
    ),
    (
        b"second;2;flashing;opening-flash;on;;0",
        second!(FlashingAmber, OpeningFlash, false),
    ),
    (
        b"second;3;amber;opening-amber;on;;0",
        second!(FixedAmber, OpeningAmber, false),
    ),
    (
        b"second;4;red;opening-red;on;;0",
        second!(Red, OpeningRed, false),
    ),
    (
        b"second;5;red;metering;on;;12",
        second!(Red, Metering, false),
    ),
    (
        b"second;6;amber;draining;on;;0",
        second!(FixedAmber, Draining, false),
    ),
    (
        b"second;7;flashing;closing;on;;0",
        second!(FlashingAmber, Closing, false),
    ),
    (
        b"second;8;dark;tripped;on;2|1;0",
        second!(Dark, Tripped, true),
    ),
    (b"line;taken;V", Ok(RecordedRow::Line { taken: true })),
    (b"line;refused;9;", Ok(RecordedRow::Line { taken: false })),
    (b"reset;taken", Ok(RecordedRow::Reset { taken: true })),
    (
        b"reset;refused;10;",
        Ok(RecordedRow::Reset { taken: false }),
    ),
    (b"period;1;61;700;120;9;4", Ok(RecordedRow::Other)),
    (b"second;1", missing!(3, Colour)),
    (b"second;1;green;metering;on;;12", bad!(3, Colour)),
    (b"second;1;red", missing!(4, Phase)),
    (b"second;1;red;opening;on;;12", bad!(4, Phase)),
    (b"second;1;red;metering;on", missing!(6, Trip)),
    (b"line", missing!(2, Taken)),
    (b"line;Taken;V", bad!(2, Taken)),
    (b"reset;", bad!(2, Taken)),
];

#[test]
fn recorded_rows(rt: HostRuntime) {
    gives(&rt, |row| read_recorded(row), &ROWS);
}
