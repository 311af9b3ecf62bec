// Rows of a plan of every kind that are well formed.
use crate::tables::gives;
use plan::{Base, HeadKind, Limits, Reader, Row, RowFault, StrategyRow, row_text};

// What a row of a plan is read as, where it is not the first.
pub(crate) fn read(raw: &[u8]) -> Result<Row, RowFault> {
    Reader::new().read(row_text(raw, false))
}

// The figures of both sheets.
const FIGURES: [u32; 22] = [
    1,
    2,
    3,
    4,
    5,
    6,
    7,
    8,
    9,
    10,
    11,
    12,
    13,
    14,
    15,
    16,
    17,
    18,
    19,
    20,
    21,
    4_294_967_295,
];

// The hourly plan of both strategies over it.
const HOURLY: Base = Base::Hourly([
    1, 2, 3, 4, 5, 6, 7, 8, 9, 10, 11, 12, 13, 14, 15, 16, 17, 18, 19, 20, 21, 22, 23, 24,
]);

const ONCE: Limits = Limits::Once(5);

const TWICE: Limits = Limits::Twice { outer: 5, inner: 3 };

// The row of a strategy.
macro_rules! strategy_row {
    ($limits:expr, $base:expr) => {
        Ok(Row::Strategy(StrategyRow {
            limits: $limits,
            base: $base,
        }))
    };
}

// Rows, and what each is read as, worked out by hand from the format of plans.
const ROWS: [(&[u8], Result<Row, RowFault>); 26] = [
    (b"", Ok(Row::Blank)),
    (b"\n", Ok(Row::Blank)),
    (b"\r\n", Ok(Row::Blank)),
    (b";;;\n", Ok(Row::Blank)),
    (b"#", Ok(Row::Blank)),
    (b"# sheet;1\n", Ok(Row::Blank)),
    (b"#\xFF\xFE\n", Ok(Row::Blank)),
    (b"reset", Ok(Row::Reset)),
    (b"reset\n", Ok(Row::Reset)),
    (b"reset;;\r\n", Ok(Row::Reset)),
    (b"head;relay\n", Ok(Row::Head(HeadKind::Relay))),
    (b"head;current;\n", Ok(Row::Head(HeadKind::Current))),
    (b"line", Ok(Row::Line { buffer: 80 })),
    (b"line;\n", Ok(Row::Line { buffer: 80 })),
    (b"line;P;;E\n", Ok(Row::Line { buffer: 80 })),
    (b"line;\x80\xFF\n", Ok(Row::Line { buffer: 80 })),
    (b"line/0;P\n", Ok(Row::Line { buffer: 0 })),
    (b"line/0012\n", Ok(Row::Line { buffer: 12 })),
    (b"line/1000;P\n", Ok(Row::Line { buffer: 1000 })),
    (
        b"strategy;alinea\n",
        strategy_row!(Limits::Unlimited, Base::Alinea),
    ),
    (
        b"strategy;limiter;5;alinea\n",
        strategy_row!(ONCE, Base::Alinea),
    ),
    (
        b"strategy;limiter;5;limiter;3;alinea\n",
        strategy_row!(TWICE, Base::Alinea),
    ),
    (
        b"strategy;plan;1;2;3;4;5;6;7;8;9;10;11;12;13;14;15;16;17;18;19;20;21;22;23;24\n",
        strategy_row!(Limits::Unlimited, HOURLY),
    ),
    (
        b"strategy;limiter;5;limiter;3;plan;1;2;3;4;5;6;7;8;9;10;11;12;13;14;15;16;17;18;19;20;21;22;23;24;\n",
        strategy_row!(TWICE, HOURLY),
    ),
    (
        b"sheet;1;2;3;4;5;6;7;8;9;10;11;12;13;14;15;16;17;18;19;20;21;4294967295\n",
        Ok(Row::Sheet(FIGURES)),
    ),
    (
        b"sheet;01;002;3;4;5;6;7;8;9;10;11;12;13;14;15;16;17;18;19;20;21;04294967295;;\r\n",
        Ok(Row::Sheet(FIGURES)),
    ),
];

#[test]
fn rows(rt: HostRuntime) {
    gives(&rt, |raw| read(raw), &ROWS);
}
