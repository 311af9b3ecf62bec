// Rows of a plan that are not well formed: the first wrong field from the left is told.
use crate::row_macros::{bad, missing, surplus};
use crate::rows::read;
use crate::tables::gives;
use plan::{Reader, Row, RowFault, Wanted, row_text};
use std::test::Fail;

// Rows, and the fault of each, worked out by hand from the format of plans.
const ROWS: [(&[u8], Result<Row, RowFault>); 56] = [
    // kinds that are unknown
    (b"Reset\n", Err(RowFault::UnknownKind)),
    (b" reset\n", Err(RowFault::UnknownKind)),
    (b"reset\r", Err(RowFault::UnknownKind)),
    (b"resets\n", Err(RowFault::UnknownKind)),
    (b";reset\n", Err(RowFault::UnknownKind)),
    (b"lines\n", Err(RowFault::UnknownKind)),
    (b"sheet/1\n", Err(RowFault::UnknownKind)),
    (b"\xFF\xFE\n", Err(RowFault::UnknownKind)),
    (b"\xEF\xBB\xBFreset\n", Err(RowFault::UnknownKind)),
    // fields that are missing
    (b"sheet\n", missing!(2, Number)),
    (b"sheet;1;2\n", missing!(4, Number)),
    (b"sheet;1;2;;\n", missing!(4, Number)),
    (b"strategy\n", missing!(2, Strategy)),
    (b"strategy;plan;1\n", missing!(4, Number)),
    (b"strategy;limiter\n", missing!(3, Number)),
    (b"strategy;limiter;5\n", missing!(4, Strategy)),
    (b"strategy;limiter;5;limiter\n", missing!(5, Number)),
    (b"strategy;limiter;5;limiter;5\n", missing!(6, Base)),
    (b"head\n", missing!(2, Head)),
    (b"second\n", missing!(2, Presence)),
    (b"second;1\n", missing!(3, Number)),
    (b"second;1;0\n", missing!(4, Word)),
    (b"second;1;0;ok;\n", missing!(5, Number)),
    (b"seconds\n", missing!(2, Number)),
    (b"seconds;1;1;0;ok\n", missing!(6, Number)),
    // fields that are malformed
    (b"sheet;1;;3\n", bad!(3, Number)),
    (b"sheet;4294967296;x\n", bad!(2, Number)),
    (b"sheet;1;+1\n", bad!(3, Number)),
    (b"sheet;1;-1\n", bad!(3, Number)),
    (b"sheet;1; 1\n", bad!(3, Number)),
    (b"strategy;Alinea\n", bad!(2, Strategy)),
    (b"strategy;limiter;x;alinea\n", bad!(3, Number)),
    (b"strategy;limiter;5;none\n", bad!(4, Strategy)),
    (
        b"strategy;limiter;5;limiter;5;limiter;5;alinea\n",
        bad!(6, Base),
    ),
    (b"head;relays\n", bad!(2, Head)),
    (b"calendar;1..2;3\n", bad!(3, Range)),
    (b"calendar;1.2\n", bad!(2, Range)),
    (b"calendar;1...2\n", bad!(2, Range)),
    (b"calendar;..2\n", bad!(2, Range)),
    (b"calendar;1..\n", bad!(2, Range)),
    (b"second;2;0;ok;0\n", bad!(2, Presence)),
    (b"second;1;0;OK;0\n", bad!(4, Word)),
    (b"second;1;0;ok;0;1|2\n", bad!(6, Lane)),
    (b"second;1;0;ok;0;1|2|3;1|2|3|4\n", bad!(7, Lane)),
    (b"seconds;5;1;0;ok;0;1|2|\n", bad!(7, Lane)),
    (b"line/1001;P\n", bad!(1, Buffer)),
    (b"line/;P\n", bad!(1, Buffer)),
    (b"line/8/0;P\n", bad!(1, Buffer)),
    // fields that are too many
    (b"reset;1\n", surplus!(2)),
    (b"head;relay;relay\n", surplus!(3)),
    (b"strategy;alinea;1\n", surplus!(3)),
    (b"strategy;limiter;1;limiter;2;alinea;;9\n", surplus!(7)),
    // 23 figures
    (
        b"sheet;1;1;1;1;1;1;1;1;1;1;1;1;1;1;1;1;1;1;1;1;1;1;1",
        surplus!(24),
    ),
    // 25 cycles
    (
        b"strategy;limiter;1;plan;1;1;1;1;1;1;1;1;1;1;1;1;1;1;1;1;1;1;1;1;1;1;1;1;1",
        surplus!(29),
    ),
    // 17 lanes
    (
        b"second;1;0;ok;0\
        ;1|2|3;1|2|3;1|2|3;1|2|3;1|2|3;1|2|3;1|2|3;1|2|3;1|2|3\
        ;1|2|3;1|2|3;1|2|3;1|2|3;1|2|3;1|2|3;1|2|3;1|2|3",
        surplus!(22),
    ),
    // 65 ranges, 13 to a line
    (
        b"calendar\
        ;1..2;1..2;1..2;1..2;1..2;1..2;1..2;1..2;1..2;1..2;1..2;1..2;1..2\
        ;1..2;1..2;1..2;1..2;1..2;1..2;1..2;1..2;1..2;1..2;1..2;1..2;1..2\
        ;1..2;1..2;1..2;1..2;1..2;1..2;1..2;1..2;1..2;1..2;1..2;1..2;1..2\
        ;1..2;1..2;1..2;1..2;1..2;1..2;1..2;1..2;1..2;1..2;1..2;1..2;1..2\
        ;1..2;1..2;1..2;1..2;1..2;1..2;1..2;1..2;1..2;1..2;1..2;1..2;1..2",
        surplus!(66),
    ),
];

// Rows, and the message that each is refused with, as the format of plans words it.
const MESSAGES: [(&[u8], &str); 4] = [
    (
        b"sheet;7\n",
        "field 3 is missing: a number from 0 to 4294967295 was expected",
    ),
    (
        b"second;1;0;no;0\n",
        "field 4 is malformed: ok or a number from 0 to 4294967295 was expected",
    ),
    (
        b"line/1001\n",
        "field 1 is malformed: line/ and a number from 0 to 1000 was expected",
    ),
    (
        b"reset;1\n",
        "field 2 is one too many: the end of the row was expected",
    ),
];

#[test]
fn faults(rt: HostRuntime) {
    gives(&rt, |raw| read(raw), &ROWS);
    assert_eq!(rt;
        Reader::new().read(row_text(b"\xEF\xBB\xBFreset\n", true)),
        Ok(Row::Reset)
    );
}

#[test]
fn messages(rt: HostRuntime) -> Result<(), Fail> {
    for (raw, expected) in &MESSAGES {
        match read(raw) {
            Ok(row) => panic!(rt; "{row:?} was read"),
            Err(fault) => assert_eq!(rt; fault.to_string(rt.alloc())?.as_str(), *expected),
        }
    }
    Ok(())
}
