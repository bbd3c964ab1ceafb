// Instructions with a memory operand, over a group's view of any store. Registers, store and group stay three parameters, as store and group do
// in the view.
#![tactic(auto)]

mod addressing;
mod changing;
mod operation;
mod reading;
mod storing;

pub use addressing::effective;
pub use changing::return_jump;
pub use operation::operate;
