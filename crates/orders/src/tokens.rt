// Reading the tokens of a line one by one.
ghost use Rattle.std.specs.Prelude.{◌≡◌, length};
ghost use Rattle.orders.specs.Tokens.{tokens_of};
ghost use Rattle.orders.specs.Reading.{left, whole_length, finished};
ghost use Rattle.orders.specs.Reading.{Stepped, Required, Expected, Phrased, BehindPhrase};

use crate::fault::OrderFault;
use crate::order::Order;
use crate::token::{Token, bytes_before, token_at};

/// What is left to read of a line, or of a phrase that a line is held against.
#[derive(Drop)]
pub(crate) struct Tokens<'a> {
    line: &'a [u8],
    // where reading goes on
    place: usize,
}

impl<'a> Tokens<'a> {
    /// The tokens of a line, from the first on.
    pub(crate) fn of(line: &'a [u8]) -> Tokens<'a>
        ensures left { left result ≡ tokens_of line.now }
        ensures length { whole_length result ≡ length line.now }
    {
        Tokens { line, place: 0 }
    }

    /// Reads the next token, if one is left.
    pub(crate) fn next_token(&mut self) -> Option<Token<'a>>
        ensures { Stepped result self.old self.new }
    {
        let line = self.line;
        let place = self.place + bytes_before(line, self.place)?;
        let token = token_at(line, place);
        self.place = place + token.text().len();
        Some(token)
    }

    /// Reads the next token; it is a fault if the line ends here.
    pub(crate) fn required(&mut self) -> Result<Token<'a>, OrderFault>
        ensures { Required result self.old self.new }
    {
        self.next_token().ok_or(OrderFault::Token(self.line.len()))
    }

    // Reads one token; it is a fault if its text is another than this.
    fn expect(&mut self, text: &[u8]) -> Result<(), OrderFault>
        ensures { Expected result text.now self.old self.new }
    {
        let token = self.required()?;
        if token.text() == text {
            Ok(())
        } else {
            Err(token.stray())
        }
    }

    /// Reads the tokens of a phrase, one after the other; it is a fault if the line has others.
    pub(crate) fn phrase(&mut self, words: &[u8]) -> Result<(), OrderFault>
        ensures { Phrased result words.now self.old self.new }
    {
        let mut wanted = Tokens::of(words);
        while let Some(token) = wanted.next_token() {
            self.expect(token.text())?;
        }
        Ok(())
    }

    /// Reads a phrase, and then the token after it.
    pub(crate) fn token_behind(&mut self, words: &[u8]) -> Result<Token<'a>, OrderFault>
        ensures { BehindPhrase result words.now self.old self.new }
    {
        self.phrase(words)?;
        self.required()
    }

    /// What the line gives if it ends here. A further token is a fault, which comes before a fault that was given.
    pub(crate) fn finish(&mut self, given: Result<Order, OrderFault>) -> Result<Order, OrderFault>
        ensures { result ≡ finished (left self.old) given }
    {
        match self.next_token() {
            Some(token) => Err(token.stray()),
            None => given,
        }
    }
}
