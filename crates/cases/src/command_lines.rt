// Command lines, and what each gives.
use crate::tables::gives;
use orders::{Order, OrderFault, Refusal, read_order};
use std::process::Abort;

// The six lines, close together and far apart, and cycles at both limits, each with its order as the table of the six
// lines says.
const TAKEN: [(&[u8], Result<Order, OrderFault>); 21] = [
    (b"PA, AM=PIL, AF=PF/0", Ok(Order::Central)),
    (b"PA, AM=PIL, AF=PF/1", Ok(Order::Local)),
    (b"PA, AM=F.1, CY=60", Ok(Order::Cycle(60))),
    (b"PM, EXTNORM", Ok(Order::Off)),
    (b"P", Ok(Order::Status)),
    (b"PE", Ok(Order::Cycles)),
    (b"PA,AM=PIL,AF=PF/0", Ok(Order::Central)),
    (b"  PA , AM = PIL , AF = PF / 1  ", Ok(Order::Local)),
    (b" PA,AM  =F.1,  CY= 7 ", Ok(Order::Cycle(7))),
    (b"PM ,EXTNORM   ", Ok(Order::Off)),
    (b"   P", Ok(Order::Status)),
    (b"P ", Ok(Order::Status)),
    (b" PE ", Ok(Order::Cycles)),
    (b"PA, AM=F.1, CY=4", Ok(Order::Cycle(4))),
    (b"PA, AM=F.1, CY=120", Ok(Order::Cycle(120))),
    (b"PA, AM=F.1, CY=0004", Ok(Order::Cycle(4))),
    // lines of 80 bytes
    (
        b"P                                                                               ",
        Ok(Order::Status),
    ),
    (
        b"                                                                              PE",
        Ok(Order::Cycles),
    ),
    (
        b"PA,AM=F.1,CY=0000000000000000000000000000000000000000000000000000000000000000120",
        Ok(Order::Cycle(120)),
    ),
    (
        b"PA, AM=F.1, CY=00000000000000000000000000000000000000000000000000000000000000009",
        Ok(Order::Cycle(9)),
    ),
    (
        b"PA, AM=PIL, AF=PF/0                                                             ",
        Ok(Order::Central),
    ),
];

// Empty lines and lines of more than 80 bytes, whatever else is wrong with them. This table and those below have the
// value that each line is refused with, worked out by hand from the table of faults: here the number of bytes.
const LENGTH: [(&[u8], usize); 5] = [
    (b"", 0),
    (
        b"P                                                                                ",
        81,
    ),
    (
        b"                                                                                 ",
        81,
    ),
    (
        b"PA,AM=F.1,CY=9999999999999999999999999999999999999999999999999999999999999999999999",
        83,
    ),
    (
        b"xxxxxxxxxxxxxxxxxxxxxxxxxxxxxxxxxxxxxxxxxxxxxxxxxxxxxxxxxxxxxxxxxxxxxxxxxxxxxxxxx",
        81,
    ),
];

// Bytes of no token and no space, with their places: lower case, the neighbours of the letters and digits, bytes above
// 127. They come before any token.
const BYTE: [(&[u8], usize); 19] = [
    (b"p", 0),
    (b"pa, AM=PIL, AF=PF/0", 0),
    (b"PA, am=PIL, AF=PF/0", 4),
    (b"PA; AM=PIL, AF=PF/0", 2),
    (b"PA, AM=PIL, AF=PF/0\t", 19),
    (b"PA, AM=F.1, CY=-5", 15),
    (b"PA, AM=F.1, CY=60\n", 17),
    (b"X x", 2),
    (b"PA, AM=F.1, CY=121 X\xff", 20),
    (b"\x80", 0),
    (b"P\xff", 1),
    (b"P\0", 1),
    (b"P@", 1),
    (b"P[", 1),
    (b"P`", 1),
    (b"P{", 1),
    (b"P:", 1),
    (b"P-", 1),
    (
        b"                                                                               p",
        79,
    ),
];

// Lines that stop early, spaces only among them, with the place of their end.
const EARLY: [(&[u8], usize); 19] = [
    (b" ", 1),
    (
        b"                                                                                ",
        80,
    ),
    (b"PA", 2),
    (b"PA,", 3),
    (b"PA, ", 4),
    (b"PA, AM", 6),
    (b"PA, AM=", 7),
    (b"PA, AM=PIL", 10),
    (b"PA, AM=PIL,", 11),
    (b"PA, AM=PIL, AF", 14),
    (b"PA, AM=PIL, AF=", 15),
    (b"PA, AM=PIL, AF=PF", 17),
    (b"PA, AM=PIL, AF=PF/", 18),
    (b"PA, AM=F.1", 10),
    (b"PA, AM=F.1,", 11),
    (b"PA, AM=F.1, CY", 14),
    (b"PA, AM=F.1, CY= ", 16),
    (b"PM", 2),
    (b"PM,", 3),
];

// A token that no line has after those before it, at each place, with its place.
const TOKEN: [(&[u8], usize); 35] = [
    (b"X", 0),
    (b"  X", 2),
    (b"PB", 0),
    (b"PAA", 0),
    (b"P.A", 0),
    (b".", 0),
    (b",", 0),
    (b"=", 0),
    (b"/", 0),
    (b"PA AM=PIL, AF=PF/0", 3),
    (b"PA, BM=PIL, AF=PF/0", 4),
    (b"PA, AM PIL, AF=PF/0", 7),
    (b"PA, AM=PIK, AF=PF/0", 7),
    (b"PA, AM=PIL.AF=PF/0", 7),
    (b"PA, AM=F.2, CY=60", 7),
    (b"PA, AM=F .1, CY=60", 7),
    (b"PA, AM=PIL AF=PF/0", 11),
    (b"PA, AM=PIL, CY=60", 12),
    (b"PA, AM=PIL, AF/PF/0", 14),
    (b"PA, AM=PIL, AF=PG/0", 15),
    (b"PA, AM=PIL, AF=PF=0", 17),
    (b"PA, AM=PIL, AF=PF 0", 18),
    (b"PA, AM=PIL, AF=PF/2", 18),
    (b"PA, AM=PIL, AF=PF/00", 18),
    (b"PA, AM=PIL, AF=PF/01", 18),
    (b"PA, AM=PIL, AF=PF/,", 18),
    (b"PA, AM=F.1 CY=60", 11),
    (b"PA, AM=F.1, AF=PF/0", 12),
    (b"PA, AM=F.1, CY 60", 15),
    (b"PA, AM=F.1, CY=6.0", 15),
    (b"PA, AM=F.1, CY=60S", 15),
    (b"PA, AM=F.1, CY=,", 15),
    (b"PM EXTNORM", 3),
    (b"PM, EXTNORN", 4),
    (b"PM, EXT NORM", 4),
];

// A token behind a whole line, with its place. It comes before the range of a cycle.
const TRAILING: [(&[u8], usize); 10] = [
    (b"P A", 2),
    (b"P, P", 1),
    (b"P,EXTNORM", 1),
    (b"PE E", 3),
    (b"PA, AM=PIL, AF=PF/0,", 19),
    (b"PA, AM=PIL, AF=PF/0 0", 20),
    (b"PM, EXTNORM, P", 11),
    (b"PA, AM=F.1, CY=60 0", 18),
    (b"PA, AM=F.1, CY=121 X", 19),
    (b"PA, AM=F.1, CY=3,", 16),
];

// Cycles outside 4 to 120, with values of any length, and the places of these.
const CYCLE: [(&[u8], usize); 10] = [
    (b"PA, AM=F.1, CY=0", 15),
    (b"PA, AM=F.1, CY=3", 15),
    (b"PA, AM=F.1, CY=0003", 15),
    (b"PA, AM=F.1, CY=121", 15),
    (b"PA, AM=F.1, CY=1200", 15),
    (b"PA,AM=F.1,CY=121", 13),
    (b"PA, AM=F.1, CY =   3 ", 19),
    (b"PA, AM=F.1, CY=4294967300", 15),
    (b"PA, AM=F.1, CY=18446744073709551620", 15),
    (
        b"PA,AM=F.1,CY=9999999999999999999999999999999999999999999999999999999999999999999",
        13,
    ),
];

// Each line is refused with this number and its value.
fn refused(rt: &impl Abort, number: u32, lines: &[(&[u8], usize)]) {
    for (line, value) in lines {
        let expected = Refusal {
            number,
            value: Some(*value),
        };
        match read_order(line) {
            Ok(order) => panic!(rt; "{line:?} gives {order:?}"),
            Err(fault) => assert_eq!(rt; fault.refusal(), expected, "at {line:?}"),
        }
    }
}

#[test]
fn command_lines(rt: HostRuntime) {
    gives(&rt, |line| read_order(line), &TAKEN);
    refused(&rt, 4, &LENGTH);
    refused(&rt, 5, &BYTE);
    refused(&rt, 6, &EARLY);
    refused(&rt, 6, &TOKEN);
    refused(&rt, 6, &TRAILING);
    refused(&rt, 7, &CYCLE);
}
