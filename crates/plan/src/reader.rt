// The reader of a plan's rows.
ghost use Rattle.std.specs.Prelude.{◌≡◌, []};
ghost use Rattle.plan.specs.Fields.{fields_left};
ghost use Rattle.plan.specs.Reader.{lanes_kept, calendar_kept, ReadAs};
ghost use Rattle.plan.specs.Rows.{calendar_row_of, said_as, row_named, row_of};

use crate::fault::RowFault;
use crate::fields::Fields;
use crate::filling::read_values;
use crate::kind::{Kind, kind_named};
use crate::plain_rows::{is_blank, read_head, read_line, read_reset, read_sheet};
use crate::row::Row;
use crate::second::read_second;
use crate::strategy_row::read_strategy;
use crate::value::next_value;
use arrayvec::ArrayVec;
use loops::LaneReading;
use sheet::MinuteRange;

/// Reads the rows of a plan, one after the other (docs/TRIAL.md, "The plan"). It keeps the lists that rows carry: the
/// lanes of the newest row, and the calendar that holds at this row.
#[derive(Debug, Drop)]
pub struct Reader {
    lanes: ArrayVec<LaneReading, 16>,
    calendar: ArrayVec<MinuteRange, 64>,
}

impl Reader {
    /// A reader before the first row of a plan; its calendar is empty.
    pub fn new() -> Reader
        ensures lanes { lanes_kept result ≡ [] }
        ensures calendar { calendar_kept result ≡ [] }
    {
        Reader {
            lanes: ArrayVec::new(),
            calendar: ArrayVec::new(),
        }
    }

    /// The lane readings of the newest row, lane 1 first. There are none if that row is no `second` or `seconds` row,
    /// or is malformed.
    pub fn lanes(&self) -> &[LaneReading]
        ensures { result.now ≡ lanes_kept self.now }
    {
        self.lanes.as_slice()
    }

    /// The calendar that holds from here on: the ranges of the newest well-formed `calendar` row, none before
    /// the first.
    pub fn calendar(&self) -> &[MinuteRange]
        ensures { result.now ≡ calendar_kept self.now }
    {
        self.calendar.as_slice()
    }

    // Reads a calendar from the fields after the row's name. A malformed one leaves the calendar as it was.
    fn read_calendar(&mut self, fields: &mut Fields<'_>) -> Result<Row, RowFault>
        requires { lanes_kept self.now ≡ [] }
        ensures { ReadAs (calendar_row_of (fields_left fields.old)) self.old self.new result }
    {
        let mut calendar = ArrayVec::new();
        read_values(fields, &mut calendar)?;
        self.calendar = calendar;
        Ok(Row::Calendar)
    }

    // Reads a row of this kind from the fields after its name.
    #[tactic(auto, using(crate::proofs::Plain::said))]
    fn read_as(&mut self, kind: Kind, fields: &mut Fields<'_>) -> Result<Row, RowFault>
        requires { lanes_kept self.now ≡ [] }
        ensures { ReadAs (said_as kind (fields_left fields.old)) self.old self.new result }
    {
        match kind {
            Kind::Sheet => read_sheet(fields),
            Kind::Strategy => read_strategy(fields).map(Row::Strategy),
            Kind::Head => read_head(fields),
            Kind::Calendar => self.read_calendar(fields),
            Kind::Second => read_second(fields, &mut self.lanes).map(Row::Second),
            Kind::Seconds => {
                let count = next_value(fields)?;
                let second = read_second(fields, &mut self.lanes)?;
                Ok(Row::Seconds { count, second })
            }
            Kind::Reset => read_reset(fields),
        }
    }

    // Reads a row of this name from the fields after it.
    #[tactic(auto, using(crate::proofs::Plain::said), unfolding(crate::specs::Rows::row_named))]
    fn read_named(&mut self, name: &[u8], fields: &mut Fields<'_>) -> Result<Row, RowFault>
        requires { lanes_kept self.now ≡ [] }
        ensures { ReadAs (row_named name.now (fields_left fields.old)) self.old self.new result }
    {
        match kind_named(name) {
            Some(kind) => self.read_as(kind, fields),
            None => read_line(name),
        }
    }

    /// What a row says, or the first thing from the left that is wrong with it. `text` is the row as `row_text` cuts
    /// it. A malformed row leaves the calendar as it was.
    #[tactic(auto, unfolding(crate::specs::Rows::row_of))]
    pub fn read(&mut self, text: &[u8]) -> Result<Row, RowFault>
        ensures { ReadAs (row_of text.now) self.old self.new result }
    {
        self.lanes.clear();
        if is_blank(text) {
            return Ok(Row::Blank);
        }
        let mut fields = Fields::of(text, b';');
        let name = fields.next().ok_or(RowFault::UnknownKind)?;
        self.read_named(name, &mut fields)
    }
}
