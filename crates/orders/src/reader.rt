// The reading of a command line, in steps: its length, its bytes, its tokens.
ghost use Rattle.std.specs.Prelude.{◌≡◌, ◌&&◌, nat_le, not, position};
ghost use Rattle.orders.specs.Tokens.{known};
ghost use Rattle.orders.specs.Orders.{length_check, byte_check, order_of};
ghost use Rattle.orders.specs.Laws.{Laws};

use crate::fault::{OrderFault, ReaderFault};
use crate::form::read_line;
use crate::order::Order;
use crate::token::is_known;

// Whether a line may have so many bytes.
fn is_length(bytes: usize) -> bool
    ensures { result ≡ (nat_le 1 bytes && nat_le bytes 80) }
{
    (1..=80).contains(&bytes)
}

// Refuses a line that is empty or too long.
fn check_length(line: &[u8]) -> Result<(), ReaderFault>
    ensures { result ≡ length_check line.now }
{
    if is_length(line.len()) {
        Ok(())
    } else {
        Err(ReaderFault::Length(line.len()))
    }
}

// The place, counted from 0, of the first byte that no line may have, if there is one.
fn first_unknown(line: &[u8]) -> Option<usize>
    ensures { result ≡ position (λ byte. not (known byte)) line.now }
{
    line.iter().position(|byte| !is_known(*byte))
}

// Refuses a line with a byte that no line may have.
fn check_bytes(line: &[u8]) -> Result<(), ReaderFault>
    ensures { result ≡ byte_check line.now }
{
    match first_unknown(line) {
        Some(place) => Err(ReaderFault::Byte(place)),
        None => Ok(()),
    }
}

/// The order that a command line gives, or its fault. Each kind of fault is looked for in the whole line before the
/// next: length, bytes, tokens, then the cycle's limits. (docs/RULES.md, "Refusals")
pub fn read_order(line: &[u8]) -> Result<Order, OrderFault>
    ensures { result ≡ order_of line.now }
{
    check_length(line)?;
    check_bytes(line)?;
    read_line(line)
}

/// Does nothing when called. Its contract gives the laws of `read_order`, for every line, in the words of the lines.
/// (docs/RULES.md, "Command lines")
pub fn laws_hold()
    ensures { Laws }
{}
