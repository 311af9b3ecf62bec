// The parts of a picture, drawn in units of a second: strips of one fill after another, and lines that go up and down.
use std::alloc::Global;
use std::io::{self, Write};

/// A strip: its place, the fill of the stretch that is drawn now with the second from which it has it, and the shapes
/// before that.
#[derive(Drop)]
pub(crate) struct Strip {
    top: u32,
    height: u32,
    fill: &'static str,
    from: u64,
    pub(crate) shapes: Vec<u8>,
}

impl Strip {
    /// A strip without a shape.
    pub(crate) fn new(heap: Global, top: u32, height: u32) -> Strip {
        Strip {
            top,
            height,
            fill: "none",
            from: 0,
            shapes: Vec::new(heap),
        }
    }

    // Draws the stretch that ends before this second.
    fn draw(&mut self, until: u64) -> io::Result<()> {
        let Strip {
            top,
            height,
            fill,
            from,
            ..
        } = self;
        let width = until.saturating_sub(*from);
        if width > 0 && *fill != "none" {
            writeln!(
                self.shapes,
                "<rect x=\"{from}\" y=\"{top}\" width=\"{width}\" height=\"{height}\" fill=\"{fill}\"/>"
            )?;
        }
        Ok(())
    }

    /// A second with this fill.
    pub(crate) fn second(&mut self, at: u64, fill: &'static str) -> io::Result<()> {
        if fill != self.fill {
            self.draw(at)?;
            self.fill = fill;
            self.from = at;
        }
        Ok(())
    }

    /// The end, behind the last second.
    pub(crate) fn end(&mut self, at: u64) -> io::Result<()> {
        self.draw(at)
    }
}

/// A line: the place of its zero, its height at the level `most`, above which it does not rise, the level now, and the
/// path before that.
#[derive(Drop)]
pub(crate) struct Line {
    zero: u32,
    height: u32,
    most: u32,
    level: u32,
    pub(crate) path: Vec<u8>,
}

impl Line {
    /// A line at level 0.
    pub(crate) fn new(heap: Global, zero: u32, height: u32, most: u32) -> Line {
        Line {
            zero,
            height,
            most,
            level: 0,
            path: Vec::new(heap),
        }
    }

    // The height at which a level is drawn.
    fn drawn(&self, level: u32) -> u32 {
        let share = u64::from(level.min(self.most)) * u64::from(self.height);
        match share.checked_div(u64::from(self.most)) {
            Some(high) => self.zero.saturating_sub(high as u32),
            None => self.zero,
        }
    }

    /// A second at this level.
    pub(crate) fn second(&mut self, at: u64, level: u32) -> io::Result<()> {
        if level != self.level {
            let drawn = self.drawn(level);
            write!(self.path, "H{at}V{drawn}")?;
            self.level = level;
        }
        Ok(())
    }
}
