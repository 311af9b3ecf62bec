// Drawing a number into limits.
ghost use Rattle.std.specs.Prelude.{◌≡◌, ◌≤◌};
ghost use Rattle.strategy.specs.Drawn.{drawn};

/// The number itself, or the nearer of the two limits where it lies outside them. The drawn number lies between two
/// u32, so the cast loses nothing.
pub(crate) fn draw_into(low: u32, high: u32, number: i64) -> u32
    requires { low ≤ high }
    ensures { result ≡ drawn low high number }
{
    number.clamp(i64::from(low), i64::from(high)) as u32
}
