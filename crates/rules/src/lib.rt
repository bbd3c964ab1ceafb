// What instructions do with registers, apart from memory. The table of all rules is in specs/Table. These are functions of the registers and
// no methods, since the crate of the registers knows no instructions.
#![tactic(auto)]

pub mod acting;
mod immediate;
mod jump;
pub mod operand;
mod shift;
mod skip;

pub use acting::act;
pub use operand::{change, take, take_two};
