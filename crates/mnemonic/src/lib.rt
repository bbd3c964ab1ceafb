// Instruction words as COMPASS writes them: a mnemonic with its modifier, then the operands.
// The enums of instructions are of crates below, so their texts are functions here: a `Display` would stand there.
#![tactic(auto)]

mod action;
pub mod listing;
mod operands;
mod operation;
pub mod symbolic;

pub use listing::Listing;
pub use symbolic::Symbolic;
