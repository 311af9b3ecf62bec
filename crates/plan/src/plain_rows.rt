// Reads the rows that carry no list of lanes or ranges.
ghost use Rattle.std.specs.Prelude.{◌≡◌};
ghost use Rattle.plan.specs.Fields.{fields_of, fields_left};
ghost use Rattle.plan.specs.Rows.{is_blank, sheet_of, head_row_of, reset_of, buffer_in, line_in};

use crate::fault::{RowFault, Wanted};
use crate::fields::Fields;
use crate::figures::next_number;
use crate::filling::fill_up;
use crate::row::Row;
use crate::value::{expect_end, next_value};

/// Whether the row says nothing: it is empty, or begins with `#`.
pub(crate) fn is_blank(text: &[u8]) -> bool
    ensures { result ≡ is_blank text.now }
{
    match text {
        [] => true,
        [first, ..] => *first == b'#',
    }
}

/// Reads the 22 figures of a sheet, in the order of the sheet; their limits are not looked at here.
pub(crate) fn read_sheet(fields: &mut Fields<'_>) -> Result<Row, RowFault>
    ensures { result ≡ sheet_of (fields_left fields.old) }
{
    let mut figures = [0; 22];
    fill_up(fields, &mut figures)?;
    Ok(Row::Sheet(figures))
}

/// Reads the lamp head, which is named in the next and last field.
pub(crate) fn read_head(fields: &mut Fields<'_>) -> Result<Row, RowFault>
    ensures { result ≡ head_row_of (fields_left fields.old) }
{
    let kind = next_value(fields)?;
    expect_end(fields)?;
    Ok(Row::Head(kind))
}

/// Reads a breaker reset, which has no further field.
pub(crate) fn read_reset(fields: &Fields<'_>) -> Result<Row, RowFault>
    ensures { result ≡ reset_of (fields_left fields.now) }
{
    expect_end(fields)?;
    Ok(Row::Reset)
}

// Reads the bytes of the answer buffer, which stand after the `/`: at most 1,000, and 80 if there is no `/`.
fn read_buffer(parts: &mut Fields<'_>) -> Result<Row, RowFault>
    ensures { result ≡ buffer_in (fields_left parts.old).fields }
{
    if parts.is_empty() {
        return Ok(Row::Line { buffer: 80 });
    }
    match next_number(parts) {
        Some(buffer) if buffer <= 1000 && parts.is_empty() => Ok(Row::Line { buffer }),
        _ => Err(RowFault::Bad {
            field: 1,
            wanted: Wanted::Buffer,
        }),
    }
}

/// Reads a command line from its name: `line`, or `line/` and the bytes of its answer buffer. Another name is an
/// unknown kind of row.
pub(crate) fn read_line(name: &[u8]) -> Result<Row, RowFault>
    ensures { result ≡ line_in (fields_of 47 name.now) }
{
    let mut parts = Fields::of(name, b'/');
    match parts.next() {
        Some(b"line") => read_buffer(&mut parts),
        _ => Err(RowFault::UnknownKind),
    }
}
