// Theorems, each the contract of a function that does nothing when called.
ghost use Rattle.sheet.specs.declared.sheet.Sheet.{Sheet};
ghost use Rattle.control.specs.Model.{Model, Given};
ghost use Rattle.runlaw.specs.RunLaw.{LawHolds};
ghost use Rattle.runlaw.specs.Records.{RecordLaws};
ghost use Rattle.runlaw.specs.Worked.{WorkedFigures};
ghost use Rattle.runlaw.specs.Steps.{WorkedSteps};

use strategy::Strategy;

/// The promises hold of every history of a station by the rules, whatever its sheet and its strategy.
/// (docs/RULES.md, "Promises")
pub fn run_law_stands<S: Strategy>()
    ensures { (f : Sheet) (s : S) → LawHolds S.Strategy f s }
{}

/// The records that a second puts agree with the station after it and with the second's answer, and a tripped station
/// keeps phase, mode, wanted, centre's cycle and colour. (docs/RULES.md, "Records" and "The breaker")
pub fn record_laws_hold<S: Strategy>()
    ensures { (f : Sheet) (m : Model S) (g : Given) → RecordLaws S.Strategy f m g }
{}

/// The rules come to the eight worked figures. (docs/RULES.md, "Worked figures")
pub fn worked_figures_hold()
    ensures { WorkedFigures }
{}

/// The rules come to the worked figures of single rules. (docs/RULES.md, "Worked figures of single rules")
pub fn worked_steps_hold()
    ensures { WorkedSteps }
{}
