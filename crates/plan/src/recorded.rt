// Reads the rows of a recorded log, as far as judging a run needs them.
ghost use Rattle.std.specs.Prelude.{◌≡◌};
ghost use Rattle.plan.specs.Fields.{fields_left};
ghost use Rattle.plan.specs.Recorded.{second_recorded, taken_recorded, recorded_named, recorded_of};

use crate::fault::RowFault;
use crate::fields::Fields;
use crate::recorded_words::{TakenWord, TripField, is};
use crate::value::next_value;
use lamps::Colour;
use records::Phase;

/// What a row of a recorded log says (docs/TRIAL.md, "Judging a recorded log").
#[derive(Clone, Copy, Debug, PartialEq, Eq)]
pub enum RecordedRow {
    /// A second.
    Second(RecordedSecond),
    /// A command line, and whether it was taken.
    Line { taken: bool },
    /// A breaker reset, and whether it was taken.
    Reset { taken: bool },
    /// A row of another kind, which is passed over.
    Other,
}

/// What a `second` row of a recorded log says of its second (docs/TRIAL.md, "Judging a recorded log").
#[derive(Clone, Copy, Debug, PartialEq, Eq)]
pub struct RecordedSecond {
    /// The colour of the light.
    pub colour: Colour,
    /// The phase.
    pub phase: Phase,
    /// Whether the station tripped in this second: the field of the trip is not empty.
    pub trips: bool,
}

// Reads a second from the fields that are left. Its number, its advance sign and the fields after its trip may be
// anything.
fn read_second(fields: &mut Fields<'_>) -> Result<RecordedSecond, RowFault>
    ensures { result ≡ second_recorded (fields_left fields.old) }
{
    let _number = fields.next();
    let colour = next_value(fields)?;
    let phase = next_value(fields)?;
    let _sign = fields.next();
    let trip: TripField = next_value(fields)?;
    Ok(RecordedSecond {
        colour,
        phase,
        trips: trip.trips,
    })
}

// Reads from the next field whether an act was taken.
fn read_taken(fields: &mut Fields<'_>) -> Result<bool, RowFault>
    ensures { result ≡ taken_recorded (fields_left fields.old) }
{
    let word: TakenWord = next_value(fields)?;
    Ok(word.taken)
}

// Reads a row of this name from the fields after it.
#[tactic(auto, unfolding(crate::specs::Recorded::recorded_named))]
fn read_named(name: &[u8], fields: &mut Fields<'_>) -> Result<RecordedRow, RowFault>
    ensures { result ≡ recorded_named name.now (fields_left fields.old) }
{
    if is(name, b"second") {
        let second = read_second(fields)?;
        Ok(RecordedRow::Second(second))
    } else if is(name, b"line") {
        let taken = read_taken(fields)?;
        Ok(RecordedRow::Line { taken })
    } else if is(name, b"reset") {
        let taken = read_taken(fields)?;
        Ok(RecordedRow::Reset { taken })
    } else {
        Ok(RecordedRow::Other)
    }
}

/// What a row says, or the first field from the left that is missing or wrong in a `second`, `line` or `reset` row.
/// `row` has no line end, as `without_end` cuts it (docs/TRIAL.md, "Judging a recorded log").
#[tactic(auto, unfolding(crate::specs::Recorded::recorded_of))]
pub fn read_recorded(row: &[u8]) -> Result<RecordedRow, RowFault>
    ensures { result ≡ recorded_of row.now }
{
    let mut fields = Fields::of(row, b';');
    match fields.next() {
        Some(name) => read_named(name, &mut fields),
        None => Ok(RecordedRow::Other),
    }
}
