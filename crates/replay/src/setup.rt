// The rows that a plan has before its first act: sheet, strategy and head, once each, in any order.
ghost use Rattle.std.specs.Prelude.{◌≡◌, Some, None};
ghost use Rattle.replay.specs.Asked.{IsAsked, IsFreshBase, head_asked};
ghost use Rattle.replay.specs.Setup.{once_in, opening_of, slot_text, misplaced_text};

use lamps::{ChosenHead, CurrentHead, RelayHead};
use plan::{Base, HeadKind, Limits, StrategyRow};
use sheet::Sheet;
use std::fmt;
use strategy::{Alinea, BaseStrategy, ChosenStrategy, HourlyPlan, Limiter};

/// The rows read so far of those that a plan has once, before its first act (docs/TRIAL.md, "Order of rows").
#[derive(Debug, Drop)]
pub struct Setup {
    sheet: Option<Sheet>,
    strategy: Option<StrategyRow>,
    head: Option<HeadKind>,
}

/// Everything that the station of a plan is opened with (docs/TRIAL.md, "Order of rows").
#[derive(Debug, Drop)]
pub struct Opening {
    /// The accepted sheet; opening a station uses it up.
    pub sheet: Sheet,
    /// Which strategy to make, and the step limiters over it.
    pub strategy: StrategyRow,
    /// Which lamp head to make.
    pub head: HeadKind,
}

// The base strategy that a plan asks for, before it is told anything.
fn base_strategy(sheet: &Sheet, base: Base) -> BaseStrategy
    ensures { IsFreshBase sheet.now base result }
{
    match base {
        Base::Alinea => BaseStrategy::Alinea(Alinea::new(sheet)),
        Base::Hourly(cycles) => BaseStrategy::Hourly(HourlyPlan::new(cycles)),
    }
}

impl Opening {
    /// The strategy that the plan asks for, as it is before the first period (docs/RULES.md, "Strategies").
    pub fn new_strategy(&self) -> ChosenStrategy
        ensures { IsAsked self.now.sheet self.now.strategy result }
    {
        let base = base_strategy(&self.sheet, self.strategy.base);
        match self.strategy.limits {
            Limits::Unlimited => ChosenStrategy::Unlimited(base),
            Limits::Once(step) => ChosenStrategy::Once(Limiter::new(base, step)),
            Limits::Twice { outer, inner } => {
                ChosenStrategy::Twice(Limiter::new(Limiter::new(base, inner), outer))
            }
        }
    }

    /// The lamp head that the plan asks for, dark and not cut (docs/RULES.md, "Lamp heads").
    pub fn new_head(&self) -> ChosenHead
        ensures { result ≡ head_asked self.now.head }
    {
        match self.head {
            HeadKind::Relay => ChosenHead::Relay(RelayHead::new()),
            HeadKind::Current => ChosenHead::Current(CurrentHead::new()),
        }
    }
}

/// The kinds of rows that stand once, before the first act (docs/TRIAL.md, "Order of rows").
#[derive(Clone, Copy, Debug, PartialEq, Eq)]
pub enum Slot {
    /// The row of the 22 figures.
    Sheet,
    /// The row of the strategy.
    Strategy,
    /// The row of the lamp head.
    Head,
}

/// What is wrong with a row that stands in a wrong place (docs/TRIAL.md, "Malformed rows").
#[derive(Clone, Copy, Debug, PartialEq, Eq)]
pub enum Misplaced {
    /// The row is of this kind, and the plan has had one.
    Again(Slot),
    /// The row is an act, and no row of this kind stands before it.
    Lacking(Slot),
}

// Writes the word that rows of this kind begin with.
impl fmt::Display for Slot {
    ghost output = { λ x. Some (slot_text x) };

    fn fmt<W: fmt::Write>(&self, f: &mut fmt::Formatter<W>) -> fmt::Result {
        match self {
            Slot::Sheet => write!(f, "sheet"),
            Slot::Strategy => write!(f, "strategy"),
            Slot::Head => write!(f, "head"),
        }
    }
}

// Writes what is wrong with the row, and what was expected.
impl fmt::Display for Misplaced {
    ghost output = { λ x. Some (misplaced_text x) };

    fn fmt<W: fmt::Write>(&self, f: &mut fmt::Formatter<W>) -> fmt::Result {
        match self {
            Misplaced::Again(slot) => write!(
                f,
                "a second {slot} row: one before the first act was expected"
            ),
            Misplaced::Lacking(slot) => write!(
                f,
                "an act without a {slot} row before it: sheet, strategy and head were expected"
            ),
        }
    }
}

impl Setup {
    /// The setup of a plan of which nothing is read yet.
    pub fn new() -> Setup
        ensures { result ≡ record { sheet = None; strategy = None; head = None } }
    {
        Setup {
            sheet: None,
            strategy: None,
            head: None,
        }
    }

    /// An error if a row of this kind was read before. Call it before the row is kept: `set_sheet`, `set_strategy` and
    /// `set_head` replace what they find.
    pub fn expect(&self, slot: Slot) -> Result<(), Misplaced>
        ensures { result ≡ once_in self.now slot }
    {
        let read = match slot {
            Slot::Sheet => self.sheet.is_some(),
            Slot::Strategy => self.strategy.is_some(),
            Slot::Head => self.head.is_some(),
        };
        if read {
            Err(Misplaced::Again(slot))
        } else {
            Ok(())
        }
    }

    /// Keeps the sheet that was made from the plan's 22 figures.
    pub fn set_sheet(&mut self, sheet: Sheet)
        ensures { self.new ≡ record { sheet = Some sheet; strategy = self.old.strategy; head = self.old.head } }
    {
        self.sheet = Some(sheet);
    }

    /// Keeps the strategy that the plan asks for.
    pub fn set_strategy(&mut self, strategy: StrategyRow)
        ensures { self.new ≡ record { sheet = self.old.sheet; strategy = Some strategy; head = self.old.head } }
    {
        self.strategy = Some(strategy);
    }

    /// Keeps the lamp head that the plan asks for.
    pub fn set_head(&mut self, head: HeadKind)
        ensures { self.new ≡ record { sheet = self.old.sheet; strategy = self.old.strategy; head = Some head } }
    {
        self.head = Some(head);
    }

    /// What to open the station with, at the first act. If rows are lacking, the error tells the first of sheet,
    /// strategy and head.
    pub fn open(self) -> Result<Opening, Misplaced>
        ensures { result ≡ opening_of self }
    {
        let Setup {
            sheet,
            strategy,
            head,
        } = self;
        let sheet = sheet.ok_or(Misplaced::Lacking(Slot::Sheet))?;
        let strategy = strategy.ok_or(Misplaced::Lacking(Slot::Strategy))?;
        let head = head.ok_or(Misplaced::Lacking(Slot::Head))?;
        Ok(Opening {
            sheet,
            strategy,
            head,
        })
    }
}
