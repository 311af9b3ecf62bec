// What the acts of a plan returned.
ghost use Rattle.std.specs.Prelude.{◌≡◌, min, take};
ghost use Rattle.replay.specs.Replies.{reply_in};

use control::{Answer, Refused};
use records::{AlarmRecord, PeriodRecord};
use station::View;

/// What one act came to.
#[derive(Clone, Copy)]
pub struct Answered {
    /// What the act itself returned.
    pub outcome: Outcome,
    /// What an observer sees of the station right after the act.
    pub view: View,
}

/// What an act returned; `Refused` tells the cause of a refusal (docs/RULES.md, "Refusals").
#[derive(Clone, Copy)]
pub enum Outcome {
    /// Of a second, which is never refused.
    Second(SecondOutcome),
    /// Of a command line: its reply, or refusal 4 to 9 or 11.
    Line(Result<Reply, Refused>),
    /// Of a breaker reset: refusal 10 if the station was not tripped.
    Reset(Result<(), Refused>),
}

/// What a second came to.
#[derive(Clone, Copy)]
pub struct SecondOutcome {
    /// The lamp word that the station was given, `ok` worked out.
    pub word: u32,
    /// Colour, phase, advance sign, and the trip of this second, if any.
    pub answer: Answer,
    /// The record of the period that closed in this second, if one did.
    pub period: Option<PeriodRecord>,
    /// The record of the alarm, if the station tripped in this second.
    pub alarm: Option<AlarmRecord>,
}

/// The reply to a command line that was taken: 0 bytes, or those of a status reading, at most 34
/// (docs/RULES.md, "Command lines"). It is held without allocation.
#[derive(Clone, Copy)]
pub struct Reply {
    bytes: [u8; 34],
    // How many of the bytes are the reply's.
    length: usize,
}

impl Reply {
    /// The first `bytes` bytes of an answer buffer, at most 34.
    pub(crate) fn of(buffer: &[u8], bytes: usize) -> Reply
        ensures { reply_in result ≡ take (min bytes 34) buffer.now }
    {
        let length = bytes.min(34).min(buffer.len());
        let mut kept = [0; 34];
        kept[..length].copy_from_slice(&buffer[..length]);
        Reply {
            bytes: kept,
            length,
        }
    }

    /// The bytes of the reply; empty for a line that is no status reading.
    pub fn as_slice(&self) -> &[u8]
        ensures { result.now ≡ reply_in self.now }
    {
        &self.bytes[..self.length.min(34)]
    }
}
