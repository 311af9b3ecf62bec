// Reads the fields of a second.
ghost use Rattle.std.specs.Prelude.{◌≡◌, []};
ghost use Rattle.plan.specs.Fields.{fields_left};
ghost use Rattle.plan.specs.Seconds.{second_of, second_in, lanes_in};

use crate::fault::RowFault;
use crate::fields::Fields;
use crate::filling::read_values;
use crate::row::SecondRow;
use crate::value::next_value;
use arrayvec::ArrayVec;
use loops::LaneReading;

/// Reads a second from the fields that are left, and its lanes into `lanes`, which stays empty if a field is wrong.
pub(crate) fn read_second(
    fields: &mut Fields<'_>,
    lanes: &mut ArrayVec<LaneReading, 16>,
) -> Result<SecondRow, RowFault>
    requires { lanes.now.items ≡ [] }
    ensures second { result ≡ second_in (second_of (fields_left fields.old)) }
    ensures lanes { lanes.new.items ≡ lanes_in (second_of (fields_left fields.old)) }
{
    let presence = next_value(fields)?;
    let queue_ms = next_value(fields)?;
    let word = next_value(fields)?;
    let minute = next_value(fields)?;
    read_values(fields, lanes)?;
    Ok(SecondRow {
        presence,
        queue_ms,
        word,
        minute,
    })
}
