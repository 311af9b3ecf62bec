// A plan that is played on a station, for somebody who watches.
use crate::playing::{Plan, Player, Start};
use crate::stop::Stop;
use lamps::ChosenHead;
use observer::Totals;
use replay::{Act, Answered, Opening, Run};
use sheet::Refusal;
use std::io::Read;
use strategy::ChosenStrategy;

/// Who watches sees each act with its answer, in their order, and then the totals; or that the sheet is refused.
pub(crate) trait Watch {
    /// An act, and what it answered.
    fn answered(&mut self, act: &Act<'_>, answered: &Answered) -> Result<(), Stop>;

    /// The run is over.
    fn closed(&mut self, totals: Totals) -> Result<(), Stop>;

    /// The sheet of the plan is refused.
    fn refused(&mut self, refusal: Refusal) -> Result<(), Stop>;

    /// Writes out what is still held back. It is called behind the last act, also after a fault.
    fn flush(&mut self) -> Result<(), Stop>;
}

// A run, and who watches it.
#[derive(Drop)]
struct Watched<W> {
    run: Run<ChosenStrategy, ChosenHead>,
    watch: W,
}

impl<W: Watch> Player for Watched<W> {
    fn act(&mut self, act: Act<'_>) -> Result<(), Stop> {
        let answered = self.run.act(act);
        self.watch.answered(&act, &answered)
    }

    fn end(&mut self) -> Result<(), Stop> {
        self.watch.closed(self.run.totals())
    }

    fn flush(&mut self) -> Result<(), Stop> {
        self.watch.flush()
    }
}

// A run of a station that is opened with what the plan has before its first act.
fn run_of(opening: Opening) -> Run<ChosenStrategy, ChosenHead> {
    let strategy = opening.new_strategy();
    let head = opening.new_head();
    let Opening { sheet, .. } = opening;
    Run::open(sheet, strategy, head)
}

/// Plays a plan from its first row to its last for somebody who watches. `needed` says that a plan without a single
/// row is none.
pub(crate) fn play_watched<R: Read + Drop, W: Watch + Drop>(
    mut plan: Plan<R>,
    mut watch: W,
    needed: bool,
) -> Result<(), Stop> {
    match plan.start() {
        Ok(Some(Start { opening, first })) => {
            let run = run_of(opening);
            plan.play(Watched { run, watch }, &first)
        }
        Ok(None) if needed && plan.is_fresh() => Err(Stop::Usage),
        Ok(None) => {
            let closed = watch.closed(Totals::default());
            watch.flush()?;
            closed
        }
        Err(Stop::SheetRefused(refusal)) => {
            let refused = watch.refused(refusal);
            watch.flush()?;
            refused?;
            Err(Stop::SheetRefused(refusal))
        }
        Err(stop) => Err(stop),
    }
}
