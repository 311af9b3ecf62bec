// A head whose words follow a code.
ghost use Rattle.std.specs.Prelude.{◌≡◌};
ghost use Rattle.lamps.specs.Meanings.{new_head, coded_meaning};

use crate::code::LampCode;
use crate::colour::Colour;
use crate::head::{LampHead, LampWords};
use crate::set::LampSet;
use std::marker::PhantomData;

/// A head whose lamp words follow the code `C`; orders, cuts and restores are the same for every code
/// (docs/RULES.md, "Lamp heads").
#[derive(Debug, Drop)]
pub struct CodedHead<C> {
    // The colour ordered; none while the head is cut.
    colour: Option<Colour>,
    code: PhantomData<C>,
}

impl<C: LampCode> CodedHead<C> {
    /// A head that is dark and not cut.
    pub fn new() -> CodedHead<C>
        ensures { result ≡ new_head }
    {
        CodedHead {
            colour: Some(Colour::Dark),
            code: PhantomData,
        }
    }
}

impl<C: LampCode> LampHead for CodedHead<C> {
    ghost colour = { (coded_meaning C.LampCode).colour };

    ghost is_cut = { (coded_meaning C.LampCode).is_cut };

    ghost shows = { (coded_meaning C.LampCode).shows };

    ghost within = { (coded_meaning C.LampCode).within };

    ghost every = { (coded_meaning C.LampCode).every };

    fn order(&mut self, chosen: Colour) {
        self.colour = self.colour.and(Some(chosen));
    }

    fn ordered(&self) -> Colour {
        self.colour.unwrap_or(Colour::Dark)
    }

    fn read(&self, word: u32) -> LampSet {
        C::read(word)
    }

    fn cut(&mut self) {
        self.colour = None;
    }

    fn restore(&mut self) {
        self.colour = Some(Colour::Dark);
    }
}

impl<C: LampCode> LampWords for CodedHead<C> {
    fn word_for(&self, lit: LampSet) -> u32 {
        C::word_for(lit)
    }
}
