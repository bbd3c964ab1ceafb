// The registers of a group, its record, and the traps that stop it.
#![tactic(auto)]

pub mod index;
pub mod key;
pub mod keys;
pub mod record;
pub mod registers;
pub mod trap;

pub use index::Index;
pub use key::Key;
pub use keys::Keys;
pub use record::{Record, State};
pub use registers::Registers;
pub use trap::Trap;
