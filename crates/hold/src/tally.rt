// Counts the rows that agree and those that differ.
ghost use Rattle.std.specs.Prelude.{◌≡◌, ◌∷◌, [], List};
ghost use Rattle.std.specs.List.{list_all};
ghost use Rattle.hold.specs.Rows.{Rows, agree, seen, tally_of};

use crate::pair::Pair;

/// How many pairs of rows agree and how many differ. Each count stops at 18,446,744,073,709,551,615
/// (docs/TRIAL.md, "Holding a recorded log").
#[derive(Clone, Copy)]
pub struct Tally {
    /// Pairs of rows with the same bytes.
    pub agreeing: u64,
    /// Pairs of rows with other bytes, and rows after the end of the shorter log.
    pub differing: u64,
}

impl Tally {
    /// The tally before the first row.
    pub fn new() -> Tally
        ensures { result ≡ tally_of [] }
    {
        Tally {
            agreeing: 0,
            differing: 0,
        }
    }

    /// The tally with one pair of rows more.
    pub fn with(self, pair: Pair<'_>) -> Tally
        ensures { (rows : List Rows) → self ≡ tally_of rows → result ≡ tally_of (seen pair.entry ∷ rows) }
    {
        if pair.agrees() {
            Tally {
                agreeing: self.agreeing.saturating_add(1),
                ..self
            }
        } else {
            Tally {
                differing: self.differing.saturating_add(1),
                ..self
            }
        }
    }

    /// Whether no pair of rows differs; also before the first row.
    pub fn all_agree(self) -> bool
        ensures { (rows : List Rows) → self ≡ tally_of rows → result ≡ list_all agree rows }
    {
        self.differing == 0
    }
}
