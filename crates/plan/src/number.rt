// Reads numbers as a plan writes them.
ghost use Rattle.std.specs.Prelude.{◌≡◌, ◌==◌};
ghost use Rattle.std.specs.List.{list_all};
ghost use Rattle.plan.specs.Decimal.{decimal};

use decimals::read_decimal;

// The most digits of a number of a plan, without zeros in front.
const MOST_DIGITS: usize = 10;

// Whether a text is zeros alone.
fn is_zeros(text: &[u8]) -> bool
    ensures { result ≡ list_all (λ b. b == 48) text.now }
{
    text.iter().all(|byte| *byte == b'0')
}

/// The number that the text writes: one or more decimal digits, leading zeros allowed, at most 4,294,967,295. None if
/// the text is anything else (docs/TRIAL.md, "Rows, fields, numbers").
pub fn read_number(text: &[u8]) -> Option<u32>
    ensures { result ≡ decimal text.now }
{
    if text.is_empty() {
        return None;
    }
    // A byte other than 0 with ten more behind it makes the number too large, or the text none: the first such ends it.
    let (front, back) = text.split_at(text.len().saturating_sub(MOST_DIGITS));
    if !is_zeros(front) {
        return None;
    }
    u32::try_from(read_decimal(back)?).ok()
}
