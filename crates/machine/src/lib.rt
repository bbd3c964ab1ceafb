// The machine: eight groups over one core, and its calls.
#![tactic(auto)]

pub mod load;
pub mod machine;
mod records;

pub use load::Load;
pub use machine::Machine;
