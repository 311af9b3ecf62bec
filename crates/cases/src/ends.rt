// The ends of rows, the mark at the start of a file, and the text of a command.
use crate::tables::gives;
use plan::{command_text, row_text};

// Rows, first or not, and their texts, worked out by hand from the format of plans: a line end and empty fields before
// it are no part of the text.
const ROWS: [(&[u8], &[u8]); 13] = [
    (b"", b""),
    (b"\n", b""),
    (b"a", b"a"),
    (b"a\n", b"a"),
    (b"a\r\n", b"a"),
    (b"a\r\r\n", b"a\r"),
    (b"a\r", b"a\r"),
    (b"a;;;\r\n", b"a"),
    (b"a;\r;\n", b"a;\r"),
    (b";a;;b;", b";a;;b"),
    (b";;;", b""),
    (b"\xFF\x80;\n", b"\xFF\x80"),
    (b" a \n", b" a "),
];

// Rows with a byte order mark, whether each is the first, and their texts, worked out by hand from the format of plans:
// the first row alone loses one mark.
const MARKED: [((&[u8], bool), &[u8]); 7] = [
    ((b"\xEF\xBB\xBFa\n", true), b"a"),
    ((b"\xEF\xBB\xBF;\n", true), b""),
    ((b"\xEF\xBB\xBF", true), b""),
    ((b"\xEF\xBB\xBF\xEF\xBB\xBFa", true), b"\xEF\xBB\xBFa"),
    ((b"\xEF\xBB\xBFa\n", false), b"\xEF\xBB\xBFa"),
    ((b"\xEF\xBB", true), b"\xEF\xBB"),
    ((b"a\xEF\xBB\xBF", true), b"a\xEF\xBB\xBF"),
];

// Rows of command lines, and the lines, worked out by hand from the format of plans: all behind the first separator.
const COMMANDS: [(&[u8], &[u8]); 7] = [
    (b"line", b""),
    (b"line;", b""),
    (b"line;P", b"P"),
    (b"line/40;PA, AM=PIL", b"PA, AM=PIL"),
    (b"line;a;b", b"a;b"),
    (b"line;;a", b";a"),
    (b"line;\xFF\x80", b"\xFF\x80"),
];

#[test]
fn texts(rt: HostRuntime) {
    gives(&rt, |raw| row_text(raw, false), &ROWS);
    gives(&rt, |raw| row_text(raw, true), &ROWS);
    gives(&rt, |(raw, first)| row_text(raw, first), &MARKED);
    gives(&rt, |row| command_text(row), &COMMANDS);
}
