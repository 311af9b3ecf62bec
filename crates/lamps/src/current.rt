// The current head: its words have the current of each lamp.
ghost use Rattle.std.specs.Prelude.{◌≡◌, ◌*◌, ◌%◌, leb};
ghost use Rattle.lamps.specs.Words.{current_of, lit_part, current_set, current_word};
ghost use Rattle.lamps.specs.Meanings.{current_code};

use crate::code::LampCode;
use crate::coded::CodedHead;
use crate::colour::Lamp;
use crate::set::LampSet;

// The least current of a lamp that is lit, in the units of the word.
const LIT_FROM: u8 = 20;

/// Lamp words with the current of each lamp: of red in bits 0 to 7, of fixed amber in 8 to 15, of flashing amber in
/// 16 to 23. A lamp whose current is 20 or more is lit (docs/RULES.md, "Lamp heads").
#[derive(Clone, Copy, Debug)]
pub struct CurrentCode;

/// The head whose lamp words have the current of each lamp (docs/RULES.md, "Lamp heads").
pub type CurrentHead = CodedHead<CurrentCode>;

// The current of a lamp in a word.
fn current_of(word: u32, lamp: Lamp) -> u8
    ensures { result ≡ current_of word lamp }
{
    let [red, fixed_amber, flashing_amber, _] = word.to_le_bytes();
    match lamp {
        Lamp::Red => red,
        Lamp::FixedAmber => fixed_amber,
        Lamp::FlashingAmber => flashing_amber,
    }
}

// Whether a lamp with this current is lit.
fn is_lit(current: u8) -> bool
    ensures { result ≡ leb 20 current }
{
    current >= LIT_FROM
}

// The lamp's number if the word has it lit, else 0.
fn lit_part(word: u32, lamp: Lamp) -> u32
    ensures { result ≡ lit_part word lamp }
{
    if is_lit(current_of(word, lamp)) {
        lamp.number()
    } else {
        0
    }
}

// The lamps that a word has lit.
fn lit_set(word: u32) -> LampSet
    ensures { result ≡ current_set word }
{
    LampSet::from_bits(
        lit_part(word, Lamp::Red)
            + lit_part(word, Lamp::FixedAmber)
            + lit_part(word, Lamp::FlashingAmber),
    )
}

// The least current of a lit lamp if the lowest bit is set, else 0.
fn current_for(bit: u32) -> u8
    ensures { result ≡ 20 * (bit % 2) }
{
    if bit % 2 == 1 { LIT_FROM } else { 0 }
}

// A word with the least current of a lit lamp for each lamp of the set, which is given by its bits.
fn word_of(lit: u32) -> u32
    ensures { result ≡ current_word lit }
{
    u32::from_le_bytes([
        current_for(lit),
        current_for(lit / 2),
        current_for(lit / 4),
        0,
    ])
}

impl LampCode for CurrentCode {
    ghost shows = { current_code.shows };

    ghost within = { current_code.within };

    ghost every = { current_code.every };

    fn read(word: u32) -> LampSet {
        lit_set(word)
    }

    fn word_for(lit: LampSet) -> u32 {
        word_of(lit.bits())
    }
}
