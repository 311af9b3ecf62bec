// Reads several values of one kind, to the end of a row.
ghost use Rattle.std.specs.Prelude.{◌≡◌, [], Ok};
ghost use Rattle.plan.specs.Fields.{fields_left};
ghost use Rattle.plan.specs.Lists.{items_or_none};
ghost use Rattle.plan.specs.Several.{at_most, FilledUp};
ghost use Rattle.plan.specs.Values.{checked, given};

use crate::fault::RowFault;
use crate::fields::Fields;
use crate::value::{Value, expect_end, next_value};
use arrayvec::ArrayVec;

// Appends the values in the fields that are left, as many as there is room for. A field more is surplus.
fn append_values<T: Value, const MOST: usize>(
    fields: &mut Fields<'_>,
    values: &mut ArrayVec<T, MOST>,
) -> Result<(), RowFault>
    requires { values.now.items ≡ [] }
    ensures { at_most T.Value.means T.Value.named MOST (fields_left fields.old) ≡
        given result (λ _. Ok values.new.items) }
{
    while !values.is_full() && !fields.is_empty() {
        values.push(next_value(fields)?);
    }
    expect_end(fields)
}

/// Replaces the values by those in the fields that are left. There are none after an error: a field is wrong, or there
/// are more than `MOST`.
pub(crate) fn read_values<T: Value + Default, const MOST: usize>(
    fields: &mut Fields<'_>,
    values: &mut ArrayVec<T, MOST>,
) -> Result<(), RowFault>
    ensures fault { result ≡ checked (at_most T.Value.means T.Value.named MOST (fields_left fields.old)) }
    ensures items { values.new.items ≡
        items_or_none (at_most T.Value.means T.Value.named MOST (fields_left fields.old)) }
{
    values.clear();
    let read = append_values(fields, values);
    if read.is_err() {
        values.clear();
    }
    read
}

/// Reads the fields that are left into all of `into`. One too few is missing, one too many is surplus.
pub(crate) fn fill_up<T: Value>(fields: &mut Fields<'_>, into: &mut [T]) -> Result<(), RowFault>
    ensures { FilledUp T.Value.means T.Value.named (fields_left fields.old) into.new result }
{
    for place in into.iter_mut() {
        *place = next_value(fields)?;
    }
    expect_end(fields)
}
