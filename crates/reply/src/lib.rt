// The replies to the status readings, written into the caller's buffer, and digits for displays and forms.
#![tactic(auto)]

mod digits;
mod text;

pub use digits::{digit_count, lay_digits};
pub use text::{NoRoom, cycles_reply, status_reply};
