// Numbers as decimal digits write them.
#![tactic(auto)]

ghost use Rattle.std.specs.Prelude.{◌≡◌, ◌+◌, ◌*◌, ◌≤◌, min};
ghost use Rattle.decimals.specs.Digits.{saturated};

// From this number on 64 bits may have no room for one more digit.
const FULL_FROM: u64 = u64::MAX / 10;

// A number with one more digit, as far as 64 bits have room. Where there is room, a plain sum takes fewer instructions.
fn with_digit(number: u64, digit: u8) -> u64
    requires { digit ≤ 9 }
    ensures { result ≡ min (number * 10 + digit) 18446744073709551615 }
{
    if number < FULL_FROM {
        number * 10 + u64::from(digit)
    } else {
        number.saturating_mul(10).saturating_add(u64::from(digit))
    }
}

/// The number that a text writes, or none if one of its bytes is no decimal digit. Leading zeros are allowed, an empty
/// text gives 0, and a number past 64 bits gives the largest of 64 bits.
pub fn read_decimal(text: &[u8]) -> Option<u64>
    ensures { result ≡ saturated text.now }
{
    let mut value: u64 = 0;
    for byte in text {
        if !byte.is_ascii_digit() {
            return None;
        }
        value = with_digit(value, *byte - b'0');
    }
    Some(value)
}
