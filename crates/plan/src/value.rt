// Reads one field of a row.
ghost use Rattle.std.specs.Prelude.{◌≡◌, ℕ, List, Option};
ghost use Rattle.plan.specs.declared.fault.Wanted.{Wanted};
ghost use Rattle.plan.specs.Fields.{fields_left, past};
ghost use Rattle.plan.specs.Values.{value_at, end_at};

use crate::fault::{RowFault, Wanted};
use crate::fields::Fields;

/// A value that a field can hold.
pub(crate) trait Value: Copy {
    // What texts mean as values of this kind.
    ghost means: { List ℕ → Option Self };

    // What a fault says is wanted where a text writes none.
    ghost named: { Wanted };

    /// The value that a text writes, if it writes one.
    fn read(text: &[u8]) -> Option<Self>
        ensures { result ≡ means text.now };

    /// What a fault says is wanted where a text writes none.
    fn wanted() -> Wanted
        ensures { result ≡ named };
}

/// Reads the value in the next field. The fault is `Missing` if no field is left, and `Bad` if it holds no such value.
pub(crate) fn next_value<T: Value>(fields: &mut Fields<'_>) -> Result<T, RowFault>
    ensures value { result ≡ value_at T.Value.means T.Value.named (fields_left fields.old) }
    ensures after { fields_left fields.new ≡ past (fields_left fields.old) }
{
    let field = fields.number();
    let wanted = T::wanted();
    let text = fields.next().ok_or(RowFault::Missing { field, wanted })?;
    T::read(text).ok_or(RowFault::Bad { field, wanted })
}

/// A `Surplus` fault if a field is left.
pub(crate) fn expect_end(fields: &Fields<'_>) -> Result<(), RowFault>
    ensures { result ≡ end_at (fields_left fields.now) }
{
    if fields.is_empty() {
        Ok(())
    } else {
        Err(RowFault::Surplus {
            field: fields.number(),
        })
    }
}
