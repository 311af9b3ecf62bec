// Mode and centre's cycle, as command lines that were taken have set them.
ghost use Rattle.std.specs.Prelude.{◌≡◌, Ok};
ghost use Rattle.runlaw.specs.Log.{cycle_by_line, length_by};
ghost use Rattle.judge.specs.Centre.{mode_by_line};

use control::Mode;
use orders::Order;
use strategy::Strategy;

/// What taken command lines have set. Its default is local mode without a centre's cycle.
#[derive(Clone, Copy, Default)]
pub(crate) struct Centre {
    pub(crate) mode: Mode,
    /// The centre's cycle in seconds, 4 to 120.
    pub(crate) cycle: Option<u32>,
}

impl Centre {
    /// What a taken order makes of it. (docs/RULES.md, "Command lines")
    pub(crate) fn after(self, order: Order) -> Centre
        ensures mode { result.mode ≡ mode_by_line (Ok order) self.mode }
        ensures cycle { result.cycle ≡ cycle_by_line (Ok order) self.cycle }
    {
        match order {
            Order::Central => Centre {
                mode: Mode::Central,
                ..self
            },
            Order::Local => Centre {
                mode: Mode::Local,
                cycle: None,
            },
            Order::Cycle(cycle) => Centre {
                cycle: Some(cycle),
                ..self
            },
            Order::Off | Order::Status | Order::Cycles => self,
        }
    }

    /// The length in seconds of a reference cycle that begins now: the centre's cycle if set, else the strategy's.
    pub(crate) fn length<S: Strategy>(self, strategy: &S) -> u32
        ensures { result ≡ length_by self.cycle (S.Strategy.cycle strategy.now) }
    {
        match self.cycle {
            Some(cycle) => cycle,
            None => strategy.ask(),
        }
    }
}
