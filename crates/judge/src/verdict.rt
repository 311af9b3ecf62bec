// The verdict on a run. (docs/RULES.md, "Promises")
ghost use Rattle.std.specs.Prelude.{◌≡◌, ◌&&◌, ◌∷◌, [], is_none, length};
ghost use Rattle.sheet.specs.declared.sheet.Sheet.{Sheet};
ghost use Rattle.runlaw.specs.Log.{Log, Row};
ghost use Rattle.judge.specs.Breach.{Keeps, Told, breach_with};

/// For each part of the run law the number of the second, from 1, in which it was first broken; none where it is kept.
/// (docs/RULES.md, "Promises")
#[derive(Clone, Copy, Debug, Default, PartialEq, Eq)]
pub struct Verdict {
    /// Succession: a colour followed another against the table, or too early or too late.
    pub succession: Option<u32>,
    /// Succession after a trip: a second was not dark before a breaker reset was taken.
    pub darkness: Option<u32>,
    /// Openings: a spell had more openings than reference cycles begun.
    pub openings: Option<u32>,
    /// Waits: a vehicle waited too long at metered red.
    pub waits: Option<u32>,
}

/// Which parts of the run law a second keeps.
#[derive(Clone, Copy)]
pub(crate) struct Kept {
    pub(crate) succession: bool,
    pub(crate) darkness: bool,
    pub(crate) openings: bool,
    pub(crate) waits: bool,
}

// The first breach of a part after one second more: an earlier one stays, else it is this second if that breaks it.
fn breach_with(earlier: Option<u32>, kept: bool, second: u32) -> Option<u32>
    ensures { result ≡ breach_with earlier kept second }
{
    earlier.or((!kept).then_some(second))
}

impl Verdict {
    /// The verdict before the first second: nothing is broken.
    pub(crate) fn new() -> Verdict
        ensures { (f : Sheet) → Told f result [] }
    {
        Verdict::default()
    }

    /// The verdict after one second more, which has this number and keeps these parts.
    pub(crate) fn after(self, kept: Kept, second: u32) -> Verdict
        ensures { (f : Sheet) (r : Row) (rs : Log) → second ≡ length (r ∷ rs) → Keeps f kept (r ∷ rs) →
            Told f self rs → Told f result (r ∷ rs) }
    {
        Verdict {
            succession: breach_with(self.succession, kept.succession, second),
            darkness: breach_with(self.darkness, kept.darkness, second),
            openings: breach_with(self.openings, kept.openings, second),
            waits: breach_with(self.waits, kept.waits, second),
        }
    }

    /// Whether no part of the run law is broken.
    pub fn is_clean(self) -> bool
        ensures { result ≡ (is_none self.succession && is_none self.darkness &&
            is_none self.openings && is_none self.waits) }
    {
        self.succession.is_none()
            && self.darkness.is_none()
            && self.openings.is_none()
            && self.waits.is_none()
    }
}
