// What can be wrong with a row, and the words for it.
ghost use Rattle.std.specs.Prelude.{Some};
ghost use Rattle.plan.specs.Faults.{wanted_text, fault_text};

use std::fmt;

/// The first thing from the left that is wrong with a row (docs/TRIAL.md, "Malformed rows"). Fields are counted from 1,
/// and the kind of the row is field 1.
#[derive(Clone, Copy, Debug, PartialEq, Eq)]
pub enum RowFault {
    /// The row begins with a word that is no kind of row.
    UnknownKind,
    /// The row ends before this field.
    Missing { field: u32, wanted: Wanted },
    /// This field holds something other than what is wanted there.
    Bad { field: u32, wanted: Wanted },
    /// This is the first field too many.
    Surplus { field: u32 },
}

/// What should have stood in a field.
#[derive(Clone, Copy, Debug, PartialEq, Eq)]
pub enum Wanted {
    /// Decimal digits, at most 4,294,967,295.
    Number,
    /// A number, 0 or 1.
    Presence,
    /// A lamp word: a number, or `ok`.
    Word,
    /// The reading of a lane: three numbers, `SEEN|SOUND|BUSY`.
    Lane,
    /// A range of minutes: two numbers, `FROM..TO`.
    Range,
    /// `alinea`, `plan` or `limiter`.
    Strategy,
    /// `alinea` or `plan`, below two limiters.
    Base,
    /// `relay` or `current`.
    Head,
    /// `line/` and the bytes of the answer buffer, at most 1,000.
    Buffer,
    /// In a recorded log: `taken` or `refused`.
    Taken,
    /// In a recorded log: a colour.
    Colour,
    /// In a recorded log: a phase.
    Phase,
    /// In a recorded log: the field of the trip, which may be empty.
    Trip,
}

// Writes what should have stood in a field.
impl fmt::Display for Wanted {
    ghost output = { λ w. Some (wanted_text w) };

    fn fmt<W: fmt::Write>(&self, f: &mut fmt::Formatter<W>) -> fmt::Result {
        f.write_str(match self {
            Wanted::Number => "a number from 0 to 4294967295",
            Wanted::Presence => "0 or 1",
            Wanted::Word => "ok or a number from 0 to 4294967295",
            Wanted::Lane => "a lane of three numbers, SEEN|SOUND|BUSY,",
            Wanted::Range => "a range of two numbers, FROM..TO,",
            Wanted::Strategy => "alinea, plan or limiter",
            Wanted::Base => "alinea or plan",
            Wanted::Head => "relay or current",
            Wanted::Buffer => "line/ and a number from 0 to 1000",
            Wanted::Taken => "taken or refused",
            Wanted::Colour => "dark, red, amber or flashing",
            Wanted::Phase => "a phase",
            Wanted::Trip => "a trip or nothing",
        })
    }
}

// Writes which field is wrong, and what was expected there.
impl fmt::Display for RowFault {
    ghost output = { λ e. Some (fault_text e) };

    fn fmt<W: fmt::Write>(&self, f: &mut fmt::Formatter<W>) -> fmt::Result {
        match self {
            RowFault::UnknownKind => write!(
                f,
                "field 1 is no kind of row: sheet, strategy, head, calendar, second, seconds, line, line/N or reset \
                 was expected"
            ),
            RowFault::Missing { field, wanted } => write!(
                f,
                "field {field} is missing: {wanted} was expected"
            ),
            RowFault::Bad { field, wanted } => write!(
                f,
                "field {field} is malformed: {wanted} was expected"
            ),
            RowFault::Surplus { field } => write!(
                f,
                "field {field} is one too many: the end of the row was expected"
            ),
        }
    }
}
