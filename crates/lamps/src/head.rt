// What every lamp head is.
ghost use Rattle.std.specs.Prelude.{◌≡◌, Bool, true, false, ℕ, ◌^◌, ◌<◌};
ghost use Rattle.lamps.specs.declared.colour.Colour.{Colour};
ghost use Rattle.lamps.specs.declared.colour.Colour.TheVariants.{Dark};
ghost use Rattle.lamps.specs.Orders.{colour_after};

use crate::colour::Colour;
use crate::set::LampSet;

/// What a lamp head does for a station (docs/RULES.md, "Lamp heads"). Its meaning is the colour ordered, whether it is
/// cut, and the set of lamps that each 32-bit lamp word stands for, as the sum of their numbers. Every word stands for
/// a set, and every set has a word. No call changes what words stand for, and none fails.
pub trait LampHead {
    // The colour ordered.
    ghost colour: { Self → Colour };

    // Whether the head is cut.
    ghost is_cut: { Self → Bool };

    // The set that a word stands for, as the sum of its lamps' numbers.
    ghost shows: { Self → ℕ → ℕ };

    // A word stands for a set of 0 to 7.
    ghost within: { (h : Self) (word : ℕ) → shows h word < 8 };

    // Every set of 0 to 7 has a word of 32 bits.
    ghost every: { (h : Self) (lit : ℕ) → lit < 8 → (word : ℕ) × (word < 2 ^ 32) × (shows h word ≡ lit) };

    /// Orders a colour. A head that is cut stays dark.
    fn order(&mut self, chosen: Colour)
        ensures colour { colour self.new ≡ colour_after (is_cut self.old) (colour self.old) chosen }
        ensures is_cut { is_cut self.new ≡ is_cut self.old }
        ensures shows { shows self.new ≡ shows self.old };

    /// The colour ordered; dark while the head is cut.
    fn ordered(&self) -> Colour
        ensures value { result ≡ colour self.now }
        ensures same { self.exit.now ≡ self.entry.now };

    /// The set of lamps that a lamp word stands for.
    fn read(&self, word: u32) -> LampSet
        ensures value { result ≡ shows self.now word }
        ensures same { self.exit.now ≡ self.entry.now };

    /// Cuts the head, as the breaker does in a trip: it is dark, and stays so until it is restored.
    fn cut(&mut self)
        ensures colour { colour self.new ≡ Dark }
        ensures is_cut { is_cut self.new ≡ true }
        ensures shows { shows self.new ≡ shows self.old };

    /// Ends the cut, and orders dark.
    fn restore(&mut self)
        ensures colour { colour self.new ≡ Dark }
        ensures is_cut { is_cut self.new ≡ false }
        ensures shows { shows self.new ≡ shows self.old };
}

/// A head that can also give a lamp word for a set of lamps, so that a plan with `ok` words can be replayed. A cabinet
/// needs no such head.
pub trait LampWords: LampHead {
    /// A word that stands for this set.
    fn word_for(&self, lit: LampSet) -> u32
        ensures value { Self.LampHead.shows self.now result ≡ lit }
        ensures same { self.exit.now ≡ self.entry.now };
}
