// Lamp heads: the colours of the light, what a head is, the relay head and the current head.
#![tactic(auto)]

mod chosen;
mod code;
mod coded;
mod colour;
mod current;
mod head;
mod relay;
mod set;

pub use chosen::ChosenHead;
pub use code::LampCode;
pub use coded::CodedHead;
pub use colour::{Colour, Lamp};
pub use current::{CurrentCode, CurrentHead};
pub use head::{LampHead, LampWords};
pub use relay::{RelayCode, RelayHead};
pub use set::LampSet;
