// Lanes of seconds, and calendars.
use crate::row_macros::{bad, lane, surplus};
use loops::LaneReading;
use plan::{Reader, Row, RowFault, SecondRow, Wanted, Word, row_text};
use sheet::MinuteRange;
use std::process::Abort;

macro_rules! second {
    ($presence:expr, $queue_ms:expr, $word:expr, $minute:expr) => {
        SecondRow {
            presence: $presence,
            queue_ms: $queue_ms,
            word: $word,
            minute: $minute,
        }
    };
}

// A row of a plan, what it is read as, and the lanes and the calendar that the reader has after it.
type Step = (
    &'static [u8],
    Result<Row, RowFault>,
    &'static [LaneReading],
    &'static [MinuteRange],
);

const NIGHT: MinuteRange = MinuteRange { from: 0, to: 359 };

const NOON: MinuteRange = MinuteRange { from: 720, to: 720 };

const ONE: LaneReading = lane!(1, 1, 80);

const PLAIN: SecondRow = second!(true, 0, Word::Lit, 0);

const SEVEN: SecondRow = second!(true, 7, Word::Lit, 3);

// Seconds, with the lanes of the row read last, worked out by hand from the format of plans.
const SECONDS: [Step; 13] = [
    (
        b"second;1;250;ok;61\n",
        Ok(Row::Second(second!(true, 250, Word::Lit, 61))),
        &[],
        &[],
    ),
    (
        b"second;0;0;12;0\n",
        Ok(Row::Second(second!(false, 0, Word::Given(12), 0))),
        &[],
        &[],
    ),
    (
        b"second;01;1;00;2;;;\n",
        Ok(Row::Second(second!(true, 1, Word::Given(0), 2))),
        &[],
        &[],
    ),
    (
        b"second;0;1;ok;2;3|2|400;0|00|1000\r\n",
        Ok(Row::Second(second!(false, 1, Word::Lit, 2))),
        &[lane!(3, 2, 400), lane!(0, 0, 1000)],
        &[],
    ),
    (
        b"seconds;0;1;7;ok;3;1|1|80\n",
        Ok(Row::Seconds {
            count: 0,
            second: SEVEN,
        }),
        &[ONE],
        &[],
    ),
    (
        b"seconds;3600;1;7;ok;3;1|1|80\n",
        Ok(Row::Seconds {
            count: 3600,
            second: SEVEN,
        }),
        &[ONE],
        &[],
    ),
    // the most lanes, 16
    (
        b"second;1;0;ok;0;1|2|3;1|2|3;1|2|3;1|2|3;1|2|3;1|2|3;1|2|3;1|2|3\
        ;1|2|3;1|2|3;1|2|3;1|2|3;1|2|3;1|2|3;1|2|3;1|2|3",
        Ok(Row::Second(PLAIN)),
        &[lane!(1, 2, 3); 16],
        &[],
    ),
    (
        b"second;1;0;ok;0;1|1|80;1|1|80\n",
        Ok(Row::Second(PLAIN)),
        &[ONE, ONE],
        &[],
    ),
    (
        b"second;1;0;ok;0;1|1|80\n",
        Ok(Row::Second(PLAIN)),
        &[ONE],
        &[],
    ),
    (b"line;P\n", Ok(Row::Line { buffer: 80 }), &[], &[]),
    (
        b"seconds;5;1;0;ok;0;1|1|80;1|1|80;1|1|80\n",
        Ok(Row::Seconds {
            count: 5,
            second: PLAIN,
        }),
        &[ONE, ONE, ONE],
        &[],
    ),
    (b"second;1;0;ok;0;1|1|80;1|1\n", bad!(7, Lane), &[], &[]),
    (b"second;1;0;ok;0\n", Ok(Row::Second(PLAIN)), &[], &[]),
];

// Calendars, worked out by hand from the format of plans: each stays until the next one that is well formed.
const CALENDARS: [Step; 9] = [
    (
        b"calendar;0..359;720..720\n",
        Ok(Row::Calendar),
        &[],
        &[NIGHT, NOON],
    ),
    (b"calendar;;\n", Ok(Row::Calendar), &[], &[]),
    // the most ranges, 64
    (
        b"calendar\
        ;720..0720;720..0720;720..0720;720..0720;720..0720;720..0720;720..0720;720..0720\
        ;720..0720;720..0720;720..0720;720..0720;720..0720;720..0720;720..0720;720..0720\
        ;720..0720;720..0720;720..0720;720..0720;720..0720;720..0720;720..0720;720..0720\
        ;720..0720;720..0720;720..0720;720..0720;720..0720;720..0720;720..0720;720..0720\
        ;720..0720;720..0720;720..0720;720..0720;720..0720;720..0720;720..0720;720..0720\
        ;720..0720;720..0720;720..0720;720..0720;720..0720;720..0720;720..0720;720..0720\
        ;720..0720;720..0720;720..0720;720..0720;720..0720;720..0720;720..0720;720..0720\
        ;720..0720;720..0720;720..0720;720..0720;720..0720;720..0720;720..0720;720..0720",
        Ok(Row::Calendar),
        &[],
        &[NOON; 64],
    ),
    (b"calendar", Ok(Row::Calendar), &[], &[]),
    (b"calendar;0..359\n", Ok(Row::Calendar), &[], &[NIGHT]),
    (
        b"second;1;0;ok;0;1|1|80\n",
        Ok(Row::Second(PLAIN)),
        &[ONE],
        &[NIGHT],
    ),
    (b"reset;1\n", surplus!(2), &[], &[NIGHT]),
    (b"calendar;1..2;3\n", bad!(3, Range), &[], &[NIGHT]),
    (b"calendar\n", Ok(Row::Calendar), &[], &[]),
];

// A new reader has no calendar, and goes through the steps.
fn steps_are(rt: &impl Abort, steps: &[Step]) {
    let mut reader = Reader::new();
    assert_eq!(rt; reader.calendar().len(), 0);
    for step in steps {
        let (raw, row, lanes, calendar) = *step;
        let read = reader.read(row_text(raw, false));
        assert_eq!(rt;
            (read, reader.lanes(), reader.calendar()),
            (row, lanes, calendar)
        );
    }
}

#[test]
fn lists(rt: HostRuntime) {
    steps_are(&rt, &SECONDS);
    steps_are(&rt, &CALENDARS);
}
