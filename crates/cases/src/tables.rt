// What a call gives for each row of a table, and the tables of numbers.
use decimals::read_decimal;
use plan::read_number;
use std::fmt::Debug;
use std::process::Abort;

// The call gives for each value of the table what stands beside it.
pub(crate) fn gives<X: Copy, T: Copy + Debug + PartialEq, F: Fn(X) -> T>(
    rt: &impl Abort,
    call: F,
    table: &[(X, T)],
)
    requires { F.IsAlwaysCallable call }
{
    for (value, expected) in table {
        assert_eq!(rt; call(*value), *expected);
    }
}

// Texts of digits, and what they write, worked out by hand: a number past 64 bits is read as the largest of 64 bits. In
// the last nine a byte is no digit, at either end or between.
const DECIMALS: [(&[u8], Option<u64>); 20] = [
    (b"", Some(0)),
    (b"0", Some(0)),
    (b"7", Some(7)),
    (b"0004", Some(4)),
    (b"121", Some(121)),
    (b"4294967295", Some(4_294_967_295)),
    (b"4294967296", Some(4_294_967_296)),
    (b"18446744073709551614", Some(18_446_744_073_709_551_614)),
    (b"18446744073709551615", Some(18_446_744_073_709_551_615)),
    (b"18446744073709551616", Some(18_446_744_073_709_551_615)),
    (
        b"100000000000000000000000000000000000000000",
        Some(18_446_744_073_709_551_615),
    ),
    (b"+1", None),
    (b"-1", None),
    (b" 1", None),
    (b"1 ", None),
    (b"1.5", None),
    (b"/0", None),
    (b"9:", None),
    (b"x", None),
    (b"12a34", None),
];

// Fields of a plan, and the numbers that they write, worked out by hand from the format of plans: none is empty, and
// none is above 32 bits.
const FIELDS: [(&[u8], Option<u32>); 14] = [
    (b"0", Some(0)),
    (b"7", Some(7)),
    (b"007", Some(7)),
    (b"00000000000000000000000001", Some(1)),
    (b"4294967295", Some(4_294_967_295)),
    (b"4294967296", None),
    (b"99999999999999999999999999", None),
    (b"", None),
    (b"+1", None),
    (b"-1", None),
    (b" 1", None),
    (b"1 ", None),
    (b"1e3", None),
    (b"\xB9", None),
];

#[test]
fn numbers(rt: HostRuntime) {
    gives(&rt, |text| read_decimal(text), &DECIMALS);
    gives(&rt, |text| read_number(text), &FIELDS);
}
