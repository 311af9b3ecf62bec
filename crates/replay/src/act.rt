// The acts of a plan.
use loops::LaneReading;
use plan::Word;
use sheet::MinuteRange;

/// What a station is given next (docs/TRIAL.md, "Order of rows").
#[derive(Clone, Copy)]
pub enum Act<'a> {
    /// A second passes (docs/RULES.md, "One second").
    Second(SecondAct<'a>),
    /// The centre sends a command line (docs/RULES.md, "Command lines").
    Line(LineAct<'a>),
    /// The breaker is reset (docs/RULES.md, "The breaker").
    Reset,
}

/// What a station is given in one second (docs/RULES.md, "One second").
#[derive(Clone, Copy)]
pub struct SecondAct<'a> {
    /// Whether a vehicle stands at the line.
    pub presence: bool,
    /// The milliseconds of this second for which the queue loop was busy. A number above 1,000 makes both counts of the
    /// queue 0.
    pub queue_ms: u32,
    /// The lamp word as the plan has it: a number, or `ok`, which is worked out when the second is played.
    pub word: Word,
    /// The minute of the week; any number, taken modulo 10,080.
    pub minute: u32,
    /// The ranges of minutes of the week in which local mode wants metering.
    pub calendar: &'a [MinuteRange],
    /// A reading of each lane, lane 1 first. A list of another length puts all lanes out of range in this second.
    pub lanes: &'a [LaneReading],
}

/// A command line with the size of its answer buffer.
#[derive(Clone, Copy)]
pub struct LineAct<'a> {
    /// The bytes of the line. A line of 0 bytes, or of more than 80, is an act that is refused.
    pub text: &'a [u8],
    /// The bytes of the answer buffer. Above 1,000 the line gets 1,000.
    pub room: usize,
}
