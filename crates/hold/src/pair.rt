// Two rows at the same place of two logs.
ghost use Rattle.std.specs.Prelude.{◌≡◌};
ghost use Rattle.hold.specs.Rows.{agree, seen};

/// The rows at one place of two logs (docs/TRIAL.md, "Holding a recorded log").
#[derive(Clone, Copy)]
pub struct Pair<'a> {
    /// The row that is due there, without its line end; none if the expected log has ended.
    pub expected: Option<&'a [u8]>,
    /// The row that was recorded there, without its line end; none if the recorded log has ended.
    pub recorded: Option<&'a [u8]>,
}

impl Pair<'_> {
    /// Whether both rows are there and have the same bytes. Two rows that are both missing do not agree.
    pub fn agrees(&self) -> bool
        ensures { result ≡ agree (seen self.now) }
    {
        match (self.expected, self.recorded) {
            (Some(expected), Some(recorded)) => expected == recorded,
            _ => false,
        }
    }
}
