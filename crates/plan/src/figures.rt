// The fields that hold numbers: figures, presence, lane readings and ranges.
ghost use Rattle.std.specs.Prelude.{◌≡◌};
ghost use Rattle.plan.specs.Decimal.{decimal};
ghost use Rattle.plan.specs.Fields.{fields_left, past};
ghost use Rattle.plan.specs.Values.{number_in, presence_of, lane_of, range_of};
ghost use Rattle.plan.specs.declared.fault.Wanted.TheVariants.{Number, Presence, Lane, Range};

use crate::fault::Wanted;
use crate::fields::Fields;
use crate::number::read_number;
use crate::value::Value;
use loops::LaneReading;
use sheet::MinuteRange;

// A number.
impl Value for u32 {
    ghost means = { decimal };

    ghost named = { Number };

    fn read(text: &[u8]) -> Option<u32> {
        read_number(text)
    }

    fn wanted() -> Wanted {
        Wanted::Number
    }
}

// Presence of a vehicle: 1 or 0, leading zeros allowed.
impl Value for bool {
    ghost means = { presence_of };

    ghost named = { Presence };

    fn read(text: &[u8]) -> Option<bool> {
        match read_number(text) {
            Some(0) => Some(false),
            Some(1) => Some(true),
            _ => None,
        }
    }

    fn wanted() -> Wanted {
        Wanted::Presence
    }
}

/// Takes the next part of a field, and returns the number in it; none if no part is left or it is no number.
pub(crate) fn next_number(parts: &mut Fields<'_>) -> Option<u32>
    ensures value { result ≡ number_in (fields_left parts.old).fields }
    ensures after { fields_left parts.new ≡ past (fields_left parts.old) }
{
    read_number(parts.next()?)
}

// The reading of a lane, `SEEN|SOUND|BUSY`: vehicles, sound vehicles, busy milliseconds.
impl Value for LaneReading {
    ghost means = { lane_of };

    ghost named = { Lane };

    fn read(text: &[u8]) -> Option<LaneReading> {
        let mut parts = Fields::of(text, b'|');
        let seen = next_number(&mut parts)?;
        let sound = next_number(&mut parts)?;
        let busy_ms = next_number(&mut parts)?;
        if parts.is_empty() {
            Some(LaneReading {
                seen,
                sound,
                busy_ms,
            })
        } else {
            None
        }
    }

    fn wanted() -> Wanted {
        Wanted::Lane
    }
}

// A range of minutes of the week, `FROM..TO`: cut at points, so that the part between the two must be empty.
impl Value for MinuteRange {
    ghost means = { range_of };

    ghost named = { Range };

    fn read(text: &[u8]) -> Option<MinuteRange> {
        let mut parts = Fields::of(text, b'.');
        let from = next_number(&mut parts)?;
        let between = parts.next()?;
        let to = next_number(&mut parts)?;
        if between.is_empty() && parts.is_empty() {
            Some(MinuteRange { from, to })
        } else {
            None
        }
    }

    fn wanted() -> Wanted {
        Wanted::Range
    }
}
