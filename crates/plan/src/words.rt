// Reads the fields that hold words: lamp words, heads and strategies.
ghost use Rattle.plan.specs.Words.{word_of, head_of, base_of, strategy_word_of};
ghost use Rattle.plan.specs.declared.fault.Wanted.TheVariants.{Word as AWord, Head, Base, Strategy};

use crate::fault::Wanted;
use crate::number::read_number;
use crate::row::{HeadKind, Word};
use crate::value::Value;

// A lamp word: a number, or `ok`.
impl Value for Word {
    ghost means = { word_of };

    ghost named = { AWord };

    fn read(text: &[u8]) -> Option<Word> {
        match text {
            b"ok" => Some(Word::Lit),
            _ => read_number(text).map(Word::Given),
        }
    }

    fn wanted() -> Wanted {
        Wanted::Word
    }
}

// A lamp head: `relay` or `current`.
impl Value for HeadKind {
    ghost means = { head_of };

    ghost named = { Head };

    fn read(text: &[u8]) -> Option<HeadKind> {
        match text {
            b"relay" => Some(HeadKind::Relay),
            b"current" => Some(HeadKind::Current),
            _ => None,
        }
    }

    fn wanted() -> Wanted {
        Wanted::Head
    }
}

/// The words for strategies that have none below them.
#[derive(Clone, Copy)]
pub(crate) enum BaseWord {
    Alinea,
    Plan,
}

impl Value for BaseWord {
    ghost means = { base_of };

    ghost named = { Base };

    fn read(text: &[u8]) -> Option<BaseWord> {
        match text {
            b"alinea" => Some(BaseWord::Alinea),
            b"plan" => Some(BaseWord::Plan),
            _ => None,
        }
    }

    fn wanted() -> Wanted {
        Wanted::Base
    }
}

/// The words for a strategy, or for a limiter over one.
#[derive(Clone, Copy)]
pub(crate) enum StrategyWord {
    Limiter,
    Of(BaseWord),
}

impl Value for StrategyWord {
    ghost means = { strategy_word_of };

    ghost named = { Strategy };

    fn read(text: &[u8]) -> Option<StrategyWord> {
        match text {
            b"limiter" => Some(StrategyWord::Limiter),
            _ => BaseWord::read(text).map(StrategyWord::Of),
        }
    }

    fn wanted() -> Wanted {
        Wanted::Strategy
    }
}
