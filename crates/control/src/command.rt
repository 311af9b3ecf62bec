// Mode, centre's cycle and whether metering is wanted: what the centre's orders and the calendar make of them.
ghost use Rattle.std.specs.Prelude.{◌≡◌};
ghost use Rattle.control.specs.Lines.{in_mode, refused_by, unless_refused, commanded};
ghost use Rattle.control.specs.Figures.{service_seconds};
ghost use Rattle.control.specs.Seconds.{wanted_after};

use crate::answer::Refused;
use orders::Order;
use sheet::Sheet;

/// Who says whether metering is wanted. (docs/RULES.md, "Purpose and units")
#[derive(Clone, Copy, Default)]
pub enum Mode {
    /// The calendar; the mode of a fresh station and after a breaker reset.
    #[default]
    Local,
    /// The command lines of the traffic control centre.
    Central,
}

/// Mode, whether metering is wanted, and the centre's cycle. Its default is that of a fresh station: local mode, not
/// wanted, no centre's cycle. (docs/RULES.md, "Command lines" and "One second")
#[derive(Clone, Copy, Default)]
pub struct Command {
    /// Whether calendar or command lines settle `wanted`.
    pub mode: Mode,
    /// Whether metering is wanted, as the newest second or command line settled it.
    pub wanted: bool,
    /// The centre's cycle in seconds, 4 to 120; none if it is not set.
    pub centre_cycle: Option<u32>,
}

// Refuses, in local mode, the orders that need central mode.
fn check_mode(mode: Mode) -> Result<(), Refused>
    ensures { result ≡ unless_refused (in_mode mode) }
{
    match mode {
        Mode::Local => Err(Refused::LocalMode),
        Mode::Central => Ok(()),
    }
}

/// Whether a station in this mode takes the order. Status readings are always taken. A tripped station refuses the
/// others with `Tripped`; local mode refuses a centre's cycle and "not wanted" with `LocalMode`.
/// (docs/RULES.md, "Refusals")
pub fn check_order(tripped: bool, mode: Mode, order: Order) -> Result<(), Refused>
    ensures { result ≡ unless_refused (refused_by tripped mode order) }
{
    match order {
        Order::Status | Order::Cycles => Ok(()),
        _ if tripped => Err(Refused::Tripped),
        Order::Central | Order::Local => Ok(()),
        Order::Cycle(_) | Order::Off => check_mode(mode),
    }
}

impl Command {
    /// What a taken order makes of mode, wanted and centre's cycle. It does not check that the order may be taken:
    /// `check_order` does. (docs/RULES.md, "Command lines")
    pub fn after(self, order: Order) -> Command
        ensures { result ≡ commanded order self }
    {
        match order {
            Order::Central => Command {
                mode: Mode::Central,
                ..self
            },
            Order::Local => Command {
                mode: Mode::Local,
                centre_cycle: None,
                ..self
            },
            Order::Cycle(cycle) => Command {
                wanted: true,
                centre_cycle: Some(cycle),
                ..self
            },
            Order::Off => Command {
                wanted: false,
                ..self
            },
            Order::Status | Order::Cycles => self,
        }
    }

    /// Whether metering is wanted in this second. Central mode keeps what command lines settled. Local mode wants it
    /// with the minute `inside` the calendar, and outside standby until 60 × X seconds were `shown` since standby.
    /// (docs/RULES.md, "One second")
    pub fn wanted_after(self, sheet: &Sheet, standby: bool, inside: bool, shown: u32) -> bool
        ensures { result ≡ wanted_after sheet.now self.mode self.wanted standby inside shown }
    {
        match self.mode {
            Mode::Local => inside || (!standby && shown < service_seconds(sheet)),
            Mode::Central => self.wanted,
        }
    }
}

// The shortest service in local mode, in seconds.
fn service_seconds(sheet: &Sheet) -> u32
    ensures { result ≡ service_seconds sheet.now }
{
    60 * sheet.figures().service_minutes
}
