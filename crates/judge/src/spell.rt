// Openings against reference cycles. (docs/RULES.md, "Promises")
ghost use Rattle.std.specs.Prelude.{◌≡◌, ◌<◌, ◌∷◌, Decides, length};
ghost use Rattle.runlaw.specs.Log.{Log, Row};
ghost use Rattle.runlaw.specs.RunLaw.{is_opening, Openings};
ghost use Rattle.judge.specs.Course.{spell_of};

use control::counted_if;

/// The spell that ends with the newest second: the metering seconds in a row. It is all 0 outside metering seconds.
#[derive(Clone, Copy, Default)]
pub(crate) struct Spell {
    /// The openings in it.
    pub(crate) openings: u32,
    /// The reference cycles that have begun in it.
    pub(crate) begun: u32,
}

impl Spell {
    /// The spell after one second more, where `metering`, `opens` and `begins` say that it is a metering second, an
    /// opening, and the first of a reference cycle.
    pub(crate) fn after(self, metering: bool, opens: bool, begins: bool) -> Spell
        ensures { (r : Row) (rs : Log) → length rs < 4294967295 →
            r.metering ≡ metering → is_opening r rs ≡ opens → r.begins ≡ begins →
            self ≡ spell_of rs → result ≡ spell_of (r ∷ rs) }
    {
        if metering {
            Spell {
                openings: counted_if(opens, self.openings),
                begun: counted_if(begins, self.begun),
            }
        } else {
            Spell::default()
        }
    }

    /// Whether the spell has no more openings than reference cycles begun.
    pub(crate) fn is_paced(self) -> bool
        ensures { (rs : Log) → self ≡ spell_of rs → Decides result (Openings rs) }
    {
        self.openings <= self.begun
    }
}
