// How lamp words are coded.
ghost use Rattle.std.specs.Prelude.{◌≡◌, ℕ, ◌^◌, ◌<◌};

use crate::set::LampSet;

/// How a 32-bit lamp word stands for a set of lamps (docs/RULES.md, "Lamp heads"). Every word stands for a set, and
/// every set has a word.
pub trait LampCode {
    // The set that a word stands for, as the sum of its lamps' numbers.
    ghost shows: { ℕ → ℕ };

    // A word stands for a set of 0 to 7.
    ghost within: { (word : ℕ) → shows word < 8 };

    // Every set of 0 to 7 has a word of 32 bits.
    ghost every: { (lit : ℕ) → lit < 8 → (word : ℕ) × (word < 2 ^ 32) × (shows word ≡ lit) };

    /// The set of lamps that a word stands for.
    fn read(word: u32) -> LampSet
        ensures { result ≡ shows word };

    /// A word that stands for this set.
    fn word_for(lit: LampSet) -> u32
        ensures { shows result ≡ lit };
}
