// The replies to the status readings, as text at the front of a buffer.
ghost use Rattle.std.specs.Prelude.{◌≡◌, ◌+◌, ◌≤◌, ◌++◌, length, drop, IfOk, if◌then◌else◌, Ok, Err, decimal, nat_lt};
ghost use Rattle.reply.specs.Replies.{status_text, cycles_text, fitted, written};

use crate::digits::digit_count;
use itoa::write_digits;

// What stands before the length of the running reference cycle.
const CYCLE_NAME: &[u8] = b"AM=F.1 CY=";

// What stands before the window flash.
const WINDOW_FLASH_NAME: &[u8] = b" JC=";

/// A buffer is too short for a reply, and nothing was written: refusal 11. (docs/RULES.md, "Refusals")
#[derive(Clone, Copy, Debug, PartialEq, Eq)]
pub struct NoRoom {
    /// Bytes that the reply needs.
    pub needed: usize,
}

// The number of bytes of a reply if the room holds them.
fn fit(room: usize, needed: usize) -> Result<usize, NoRoom>
    ensures { result ≡ (if nat_lt room needed then Err (record { needed = needed }) else Ok needed) }
{
    if room < needed {
        Err(NoRoom { needed })
    } else {
        Ok(needed)
    }
}

// Writes a reply to the front of the buffer, and returns the number of its bytes, or the number needed if it does not
// fit; nothing is written then.
fn write_reply(text: &[u8], buffer: &mut [u8]) -> Result<usize, NoRoom>
    ensures result { result ≡ fitted (length buffer.old) text.now }
    ensures bytes { buffer.new ≡ written text.now buffer.old }
{
    let bytes = fit(buffer.len(), text.len())?;
    buffer[..bytes].copy_from_slice(text);
    Ok(bytes)
}

/// Writes the answer to line `P`, this one letter, to the front of the buffer, and returns the number of bytes written,
/// or `NoRoom` if the buffer is empty. No byte beyond the answer alters. (docs/RULES.md, "Command lines")
pub fn status_reply(letter: u8, buffer: &mut [u8]) -> Result<usize, NoRoom>
    ensures result { result ≡ fitted (length buffer.old) (status_text letter) }
    ensures bytes { buffer.new ≡ written (status_text letter) buffer.old }
    ensures few { IfOk result (λ n. n ≤ 34) }
{
    write_reply(&[letter], buffer)
}

// Writes a name and a figure after it, as in ` JC=4`, just before a place, and returns the place of the name. Inlined,
// the copy of a name is one of a known length.
#[inline(always)]
fn write_field(buffer: &mut [u8], end: usize, name: &[u8], figure: u32) -> usize
    requires room { length name.now + length (decimal figure) ≤ end }
    requires within { end ≤ length buffer.old }
    ensures place { result + (length name.now + length (decimal figure)) ≡ end }
    ensures tail { drop result buffer.new ≡ name.now ++ (decimal figure ++ drop end buffer.old) }
{
    let digits = write_digits(u64::from(figure), buffer, end);
    let place = digits - name.len();
    buffer[place..digits].copy_from_slice(name);
    place
}

/// Writes the answer to line `PE`, as in `AM=F.1 CY=60 JC=4`, to the front of the buffer, and returns the number of
/// bytes written, at most 34, or `NoRoom` if the answer does not fit. `cycle` is the length of the running reference
/// cycle in seconds, 0 outside metering; `window_flash` is JC in seconds. (docs/RULES.md, "Command lines")
pub fn cycles_reply(cycle: u32, window_flash: u32, buffer: &mut [u8]) -> Result<usize, NoRoom>
    ensures result { result ≡ fitted (length buffer.old) (cycles_text cycle window_flash) }
    ensures bytes { buffer.new ≡ written (cycles_text cycle window_flash) buffer.old }
    ensures few { IfOk result (λ n. n ≤ 34) }
{
    let needed = CYCLE_NAME.len()
        + digit_count(cycle)
        + WINDOW_FLASH_NAME.len()
        + digit_count(window_flash);
    let bytes = fit(buffer.len(), needed)?;
    let place = write_field(buffer, bytes, WINDOW_FLASH_NAME, window_flash);
    write_field(buffer, place, CYCLE_NAME, cycle);
    Ok(bytes)
}
