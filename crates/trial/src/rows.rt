// The rows of a plan, one by one, as they are read.
use crate::lines::Lines;
use crate::stop::{Fault, Stop};
use plan::{Reader, Row, RowFault, row_text};
use std::alloc::Global;
use std::io::Read;

/// The plan from here on, and what the reader of rows keeps.
#[derive(Drop)]
pub(crate) struct Rows<R> {
    lines: Lines<R>,
    reader: Reader,
}

impl<R: Read + Drop> Rows<R> {
    /// The plan from its beginning.
    pub(crate) fn new(heap: Global, from: R) -> Result<Rows<R>, Stop> {
        Ok(Rows {
            lines: Lines::new(heap, from)?,
            reader: Reader::new(),
        })
    }

    /// Goes on to the next row, and returns whether there is one.
    pub(crate) fn advance(&mut self) -> Result<bool, Stop> {
        self.lines.advance()
    }

    /// What the row says that was gone on to.
    pub(crate) fn read(&mut self) -> Result<Row, RowFault> {
        self.reader
            .read(row_text(self.lines.raw(), self.lines.number() == 1))
    }

    /// The text of the row read last.
    pub(crate) fn text(&self) -> &[u8] {
        row_text(self.lines.raw(), self.lines.number() == 1)
    }

    /// The lanes of the row read last, and the calendar at the moment.
    pub(crate) fn reader(&self) -> &Reader {
        &self.reader
    }

    /// Whether no row has been read.
    pub(crate) fn is_fresh(&self) -> bool {
        self.lines.number() == 0
    }

    /// The end of the run at this row.
    pub(crate) fn malformed(&self, fault: impl Into<Fault>) -> Stop {
        Stop::Malformed(self.lines.number(), fault.into())
    }
}
