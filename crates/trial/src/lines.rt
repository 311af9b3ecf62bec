// A file of rows, read one row after the other.
use crate::stop::Stop;
use plan::without_end;
use std::alloc::Global;
use std::io::{BufRead, BufReader, Read};
use std::ops::Range;

/// A file of rows from here on, with the row read last and its number from 1.
#[derive(Drop)]
pub(crate) struct Lines<R> {
    from: BufReader<R>,
    raw: Vec<u8>,
    number: u64,
}

impl<R: Read + Drop> Lines<R> {
    /// The file from its beginning.
    pub(crate) fn new(heap: Global, from: R) -> Result<Lines<R>, Stop> {
        Ok(Lines {
            from: BufReader::new(heap, from)?,
            raw: Vec::new(heap),
            number: 0,
        })
    }

    /// Reads the next row, and returns whether there is one.
    pub(crate) fn advance(&mut self) -> Result<bool, Stop> {
        self.raw.clear();
        if self.from.read_until(b'\n', &mut self.raw)? == 0 {
            return Ok(false);
        }
        self.number = self.number.saturating_add(1);
        Ok(true)
    }

    /// The row read last, as it stands in the file; nothing where there was none.
    pub(crate) fn raw(&self) -> &[u8] {
        self.raw.as_slice()
    }

    /// The row read last without its line end.
    pub(crate) fn row(&self) -> &[u8] {
        without_end(self.raw.as_slice())
    }

    /// The number of the row read last, 0 before the first.
    pub(crate) fn number(&self) -> u64 {
        self.number
    }
}

/// As many turns as any file has rows, for a loop that reads to its end: no contract says that input ends, so
/// nothing falls from turn to turn but their number.
pub(crate) fn turns() -> Range<u64> {
    0..u64::MAX
}
