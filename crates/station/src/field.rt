// What a station is given in a second, and what an observer may see of it.
use control::Mode;
use lamps::Colour;
use loops::LaneReading;
use records::Phase;

/// What detectors and lamps tell the station in a second. (docs/RULES.md, "One second")
#[derive(Clone, Copy)]
pub struct Field<'a> {
    /// Whether a vehicle stands at the line.
    pub presence: bool,
    /// The milliseconds of the second in which the queue loop was busy; more than 1,000 is neither full nor cleared.
    pub queue_ms: u32,
    /// The lamp word, by which the lamp head tells the lamps that are lit. (docs/RULES.md, "Lamp heads")
    pub word: u32,
    /// One reading for each lane, lane 1 first. With another number of readings all lanes are out of range.
    pub lanes: &'a [LaneReading],
}

/// What an observer may see of a station between two acts.
#[derive(Clone, Copy)]
pub struct View {
    /// The number of the newest second, 0 before the first; it stops at 4,294,967,295.
    pub seconds: u32,
    /// The colour that the lamp head means.
    pub colour: Colour,
    /// The phase after the newest act.
    pub phase: Phase,
    /// Whether calendar or command lines say that metering is wanted.
    pub mode: Mode,
    /// Whether metering is wanted, as the newest second or command line settled it.
    pub wanted: bool,
    /// The length of the running reference cycle in seconds, 0 outside metering.
    pub cycle: u32,
}
