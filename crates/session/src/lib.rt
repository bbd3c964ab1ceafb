// What a deck builds before its machine is made.
#![tactic(auto)]

pub mod building;
pub mod filling;
pub mod making;
pub mod memory;
pub mod misplaced;
pub mod reading;
pub mod unit;

pub use memory::{Block, Memory, Pile};
pub use misplaced::Misplaced;
pub use unit::Unit;

#[cfg(test)]
mod tests;
