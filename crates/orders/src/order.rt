// Orders, and the tokens that carry a mode or a cycle.
ghost use Rattle.std.specs.Prelude.{◌≡◌, ◌&&◌, nat_le};
ghost use Rattle.orders.specs.Lines.{cycle_order};
ghost use Rattle.orders.specs.Reading.{mode_order};

use crate::fault::OrderFault;

/// What a command line asks for. (docs/RULES.md, "Command lines")
#[derive(Clone, Copy, Debug, PartialEq, Eq)]
pub enum Order {
    /// Central mode, line 1.
    Central,
    /// Local mode, which clears the centre's cycle, line 2.
    Local,
    /// The centre's cycle in seconds, 4 to 120, and metering wanted, line 3.
    Cycle(u32),
    /// Metering not wanted, line 4.
    Off,
    /// The status reading that is answered by one letter, line 5.
    Status,
    /// The status reading that is answered by the running reference cycle and JC, line 6.
    Cycles,
}

/// The order of a mode digit, if the text is one: `0` central, `1` local.
pub(crate) fn mode_order(text: &[u8]) -> Option<Order>
    ensures { result ≡ mode_order text.now }
{
    match text {
        [digit] => match char::from(*digit) {
            '0' => Some(Order::Central),
            '1' => Some(Order::Local),
            _ => None,
        },
        _ => None,
    }
}

// Whether the centre may set a cycle of so many seconds.
fn is_cycle(seconds: u32) -> bool
    ensures { result ≡ (nat_le 4 seconds && nat_le seconds 120) }
{
    (4..=120).contains(&seconds)
}

/// The order of a cycle of so many seconds, or the fault with the place of its digits if it is outside 4 to 120.
pub(crate) fn cycle_order(seconds: u64, place: usize) -> Result<Order, OrderFault>
    ensures { result ≡ cycle_order seconds place }
{
    match u32::try_from(seconds) {
        Ok(seconds) if is_cycle(seconds) => Ok(Order::Cycle(seconds)),
        _ => Err(OrderFault::Cycle(place)),
    }
}
