// The relay head: its words have a bit for each lamp.
ghost use Rattle.lamps.specs.Meanings.{relay_code};

use crate::code::LampCode;
use crate::coded::CodedHead;
use crate::set::LampSet;

/// Lamp words with a bit for each lamp: red in the lowest, fixed amber in the next, flashing amber in the third
/// (docs/RULES.md, "Lamp heads").
#[derive(Clone, Copy, Debug)]
pub struct RelayCode;

/// The head whose lamp words have a bit for each lamp (docs/RULES.md, "Lamp heads").
pub type RelayHead = CodedHead<RelayCode>;

impl LampCode for RelayCode {
    ghost shows = { relay_code.shows };

    ghost within = { relay_code.within };

    ghost every = { relay_code.every };

    fn read(word: u32) -> LampSet {
        LampSet::from_bits(word)
    }

    fn word_for(lit: LampSet) -> u32 {
        lit.bits()
    }
}
