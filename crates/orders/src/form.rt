// The six lines, read token by token.
ghost use Rattle.std.specs.Prelude.{◌≡◌};
ghost use Rattle.orders.specs.Lines.{lines};
ghost use Rattle.orders.specs.Orders.{line_order};
ghost use Rattle.orders.specs.Reading.{lines_past, Reads};

use crate::fault::OrderFault;
use crate::order::{Order, cycle_order, mode_order};
use crate::tokens::Tokens;
use decimals::read_decimal;

/// The order of a line, read by its tokens alone: length and bytes are not checked here.
pub(crate) fn read_line(line: &[u8]) -> Result<Order, OrderFault>
    ensures { result ≡ line_order line.now }
{
    read_form(&mut Tokens::of(line))
}

// Reads a line from its first token to its end.
fn read_form(tokens: &mut Tokens) -> Result<Order, OrderFault>
    ensures { Reads result lines tokens.old }
{
    let first = tokens.required()?;
    match first.text() {
        b"PA" => read_set(tokens),
        b"PM" => read_off(tokens),
        b"P" => tokens.finish(Ok(Order::Status)),
        b"PE" => tokens.finish(Ok(Order::Cycles)),
        _ => Err(first.stray()),
    }
}

// Reads what follows `PM`.
fn read_off(tokens: &mut Tokens) -> Result<Order, OrderFault>
    ensures { Reads result (lines_past "PM") tokens.old }
{
    tokens.phrase(b", EXTNORM")?;
    tokens.finish(Ok(Order::Off))
}

// Reads what follows `PA`.
fn read_set(tokens: &mut Tokens) -> Result<Order, OrderFault>
    ensures { Reads result (lines_past "PA") tokens.old }
{
    let next = tokens.token_behind(b", AM=")?;
    match next.text() {
        b"PIL" => read_mode(tokens),
        b"F.1" => read_cycle(tokens),
        _ => Err(next.stray()),
    }
}

// Reads what follows `PA, AM=PIL`.
fn read_mode(tokens: &mut Tokens) -> Result<Order, OrderFault>
    ensures { Reads result (lines_past "PA, AM=PIL") tokens.old }
{
    let digit = tokens.token_behind(b", AF=PF/")?;
    match mode_order(digit.text()) {
        Some(order) => tokens.finish(Ok(order)),
        None => Err(digit.stray()),
    }
}

// Reads what follows `PA, AM=F.1`.
fn read_cycle(tokens: &mut Tokens) -> Result<Order, OrderFault>
    ensures { Reads result (lines_past "PA, AM=F.1") tokens.old }
{
    let digits = tokens.token_behind(b", CY=")?;
    match read_decimal(digits.text()) {
        Some(seconds) => tokens.finish(cycle_order(seconds, digits.place())),
        None => Err(digits.stray()),
    }
}
