// What a station is due to answer to command lines and breaker resets. (docs/TRIAL.md, "Judging a recorded log")
ghost use Rattle.std.specs.Prelude.{◌≡◌, ◌≤◌, length, IfOk};
ghost use Rattle.control.specs.Lines.{fitted, refused_by, answered_by, bytes_of, buffer_after};
ghost use Rattle.orders.specs.Orders.{order_of};
ghost use Rattle.judge.specs.Due.{reply_due, answer_due, reset_answer_due};

use control::{Mode, Refused, check_order, status_letter};
use orders::{Order, read_order};
use records::Phase;
use reply::{cycles_reply, status_reply};
use sheet::Sheet;

/// How a station stands between two acts, as plan and log have it.
#[derive(Clone, Copy)]
pub(crate) struct Standing {
    pub(crate) is_tripped: bool,
    pub(crate) mode: Mode,
    pub(crate) phase: Phase,
    /// The length of the running reference cycle in seconds, 0 outside metering.
    pub(crate) cycle: u32,
}

impl Standing {
    // Writes the reply that is due to an order and returns its bytes; only status readings have one.
    fn reply_to(self, sheet: &Sheet, order: Order, buffer: &mut [u8]) -> Result<usize, Refused>
        ensures count { result ≡ bytes_of (fitted (length buffer.old) (reply_due sheet.now self order)) }
        ensures bytes { buffer.new ≡
            buffer_after (fitted (length buffer.old) (reply_due sheet.now self order)) buffer.old }
        ensures few { IfOk result (λ n. n ≤ 34) }
    {
        match order {
            Order::Status => Ok(status_reply(status_letter(self.phase), buffer)?),
            Order::Cycles => Ok(cycles_reply(self.cycle, sheet.figures().window_flash, buffer)?),
            Order::Central | Order::Local | Order::Cycle(_) | Order::Off => Ok(0),
        }
    }

    // Writes the reply that is due to an order and returns its bytes, or says why the order is to be refused.
    fn answer_order(self, sheet: &Sheet, order: Order, buffer: &mut [u8]) -> Result<usize, Refused>
        ensures count { result ≡ bytes_of (answered_by (length buffer.old)
            (refused_by self.is_tripped self.mode order) (reply_due sheet.now self order)) }
        ensures bytes { buffer.new ≡ buffer_after (answered_by (length buffer.old)
            (refused_by self.is_tripped self.mode order) (reply_due sheet.now self order))
            buffer.old }
        ensures few { IfOk result (λ n. n ≤ 34) }
    {
        check_order(self.is_tripped, self.mode, order)?;
        self.reply_to(sheet, order, buffer)
    }

    /// Reads a line, writes the reply that is due and returns its bytes, or says why the line is to be refused.
    pub(crate) fn answer_line(
        self,
        sheet: &Sheet,
        line: &[u8],
        buffer: &mut [u8],
    ) -> Result<usize, Refused>
        ensures count { result ≡ bytes_of (answer_due sheet.now self (length buffer.old) (order_of line.now)) }
        ensures bytes { buffer.new ≡
            buffer_after (answer_due sheet.now self (length buffer.old) (order_of line.now)) buffer.old }
        ensures few { IfOk result (λ n. n ≤ 34) }
    {
        let order = read_order(line)?;
        self.answer_order(sheet, order, buffer)
    }

    /// Whether a breaker reset is to be taken: a station that is not tripped refuses it with `NotTripped`.
    pub(crate) fn answer_reset(self) -> Result<(), Refused>
        ensures { result ≡ reset_answer_due self }
    {
        if self.is_tripped {
            Ok(())
        } else {
            Err(Refused::NotTripped)
        }
    }
}
