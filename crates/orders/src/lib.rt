// Command lines: the order that a line gives, or the fault for which it is refused.
#![tactic(auto)]

mod fault;
mod form;
mod order;
mod reader;
mod token;
mod tokens;

pub use fault::{OrderFault, ReaderFault, Refusal};
pub use order::Order;
pub use reader::{laws_hold, read_order};
