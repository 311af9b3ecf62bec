// Decimal digits, laid into a buffer from the back.
ghost use Rattle.std.specs.Prelude.{◌≡◌, ◌≤◌, ◌&&◌, length, decimal, nat_le};
ghost use Rattle.reply.specs.Laying.{first_place, laid_where_it_fits};

use itoa::{Buffer, write_digits};

/// How many decimal digits a number has, 1 to 10. (docs/RULES.md, "Digits laid from the back")
pub fn digit_count(figure: u32) -> usize
    ensures count { result ≡ length (decimal figure) }
    ensures few { result ≤ 10 }
{
    Buffer::new().format(figure).len()
}

// Whether so many bytes fit just before a place, which lies in a buffer of this length or at its end.
fn fit_before(bytes: usize, end: usize, room: usize) -> bool
    ensures { result ≡ (nat_le bytes end && nat_le end room) }
{
    bytes <= end && end <= room
}

/// Lays the decimal digits of a number into a buffer just before a place, without leading zeros, and returns the place
/// of the first digit. Writes nothing and returns none if they do not fit before that place, or the place lies beyond
/// the buffer's end. No other byte alters. (docs/RULES.md, "Digits laid from the back")
pub fn lay_digits(buffer: &mut [u8], end: usize, figure: u32) -> Option<usize>
    ensures place { result ≡ first_place end (decimal figure) buffer.old }
    ensures bytes { buffer.new ≡ laid_where_it_fits end (decimal figure) buffer.old }
{
    if fit_before(digit_count(figure), end, buffer.len()) {
        Some(write_digits(u64::from(figure), buffer, end))
    } else {
        None
    }
}
