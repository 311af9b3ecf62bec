// One type for either lamp head of the rules, for programs that choose as they run.
ghost use Rattle.lamps.specs.Chosen.{chosen_meaning};

use crate::colour::Colour;
use crate::current::CurrentHead;
use crate::head::{LampHead, LampWords};
use crate::relay::RelayHead;
use crate::set::LampSet;

/// The relay head or the current head, chosen as a program runs (docs/RULES.md, "Lamp heads").
#[derive(Debug, Drop)]
pub enum ChosenHead {
    /// Lamp words have a bit for each lamp.
    Relay(RelayHead),
    /// Lamp words have the current of each lamp.
    Current(CurrentHead),
}

impl LampHead for ChosenHead {
    ghost colour = { chosen_meaning.colour };

    ghost is_cut = { chosen_meaning.is_cut };

    ghost shows = { chosen_meaning.shows };

    ghost within = { chosen_meaning.within };

    ghost every = { chosen_meaning.every };

    fn order(&mut self, chosen: Colour) {
        match self {
            ChosenHead::Relay(head) => head.order(chosen),
            ChosenHead::Current(head) => head.order(chosen),
        }
    }

    fn ordered(&self) -> Colour {
        match self {
            ChosenHead::Relay(head) => head.ordered(),
            ChosenHead::Current(head) => head.ordered(),
        }
    }

    fn read(&self, word: u32) -> LampSet {
        match self {
            ChosenHead::Relay(head) => head.read(word),
            ChosenHead::Current(head) => head.read(word),
        }
    }

    fn cut(&mut self) {
        match self {
            ChosenHead::Relay(head) => head.cut(),
            ChosenHead::Current(head) => head.cut(),
        }
    }

    fn restore(&mut self) {
        match self {
            ChosenHead::Relay(head) => head.restore(),
            ChosenHead::Current(head) => head.restore(),
        }
    }
}

impl LampWords for ChosenHead {
    fn word_for(&self, lit: LampSet) -> u32 {
        match self {
            ChosenHead::Relay(head) => head.word_for(lit),
            ChosenHead::Current(head) => head.word_for(lit),
        }
    }
}
