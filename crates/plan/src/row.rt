// The rows of a plan as values.

/// What one row of a plan says (docs/TRIAL.md, "Kinds of rows"). The lanes of a second and the ranges of a calendar are
/// kept by the `Reader`, so that a row is small.
#[derive(Clone, Copy, Debug, PartialEq, Eq)]
pub enum Row {
    /// Nothing, or a comment.
    Blank,
    /// The 22 figures of the draft, in the order of the sheet, of any value (docs/RULES.md, "The sheet of figures").
    Sheet([u32; 22]),
    /// The strategy of the station.
    Strategy(StrategyRow),
    /// The lamp head of the station.
    Head(HeadKind),
    /// The calendar changes: `Reader::calendar` returns the new one.
    Calendar,
    /// One second; `Reader::lanes` returns its lane readings.
    Second(SecondRow),
    /// `count` times the same second, perhaps 0 times; `Reader::lanes` returns its lane readings.
    Seconds { count: u32, second: SecondRow },
    /// A command line with an answer buffer of 0 to 1,000 bytes; `command_text` returns the line itself.
    Line { buffer: u32 },
    /// A breaker reset.
    Reset,
}

/// A strategy with the step limiters over it (docs/RULES.md, "Strategies").
#[derive(Clone, Copy, Debug, PartialEq, Eq)]
pub struct StrategyRow {
    /// The step limiters, with steps in seconds.
    pub limits: Limits,
    /// The strategy below them.
    pub base: Base,
}

/// The steps of the limiters, in seconds and of any value; making a limiter draws its step into 1 to 30
/// (docs/RULES.md, "Step limiter").
#[derive(Clone, Copy, Debug, PartialEq, Eq)]
pub enum Limits {
    /// No limiter.
    Unlimited,
    /// One limiter with this step.
    Once(u32),
    /// A limiter over a limiter.
    Twice { outer: u32, inner: u32 },
}

/// The strategy below the limiters.
#[derive(Clone, Copy, Debug, PartialEq, Eq)]
pub enum Base {
    /// ALINEA, made from the sheet (docs/RULES.md, "ALINEA").
    Alinea,
    /// The hourly plan: a cycle for each hour of the day, hour 0 first, in seconds and of any value; making the plan
    /// draws each into 4 to 120 (docs/RULES.md, "Hourly plan").
    Hourly([u32; 24]),
}

/// The kinds of lamp heads (docs/RULES.md, "Lamp heads").
#[derive(Clone, Copy, Debug, PartialEq, Eq)]
pub enum HeadKind {
    /// The lowest three bits of a lamp word are the lamps that are lit.
    Relay,
    /// The lowest three bytes of a lamp word are the currents of the lamps; a lamp is lit from 20 up.
    Current,
}

/// What the station is given in one second, but for its lanes and the calendar (docs/RULES.md, "One second").
#[derive(Clone, Copy, Debug, PartialEq, Eq)]
pub struct SecondRow {
    /// Whether a vehicle stands at the line.
    pub presence: bool,
    /// The milliseconds of this second for which the queue loop was busy; any number.
    pub queue_ms: u32,
    /// The lamp word.
    pub word: Word,
    /// The minute of the week; any number, which the station takes modulo 10,080.
    pub minute: u32,
}

/// The lamp word that the head reads in a second.
#[derive(Clone, Copy, Debug, PartialEq, Eq)]
pub enum Word {
    /// `ok`: a word for exactly the lamps of the colour that the head means right before the second. It is worked out
    /// anew for each second.
    Lit,
    /// This word.
    Given(u32),
}
