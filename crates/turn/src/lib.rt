// A turn of a group: instructions one after the other, up to a length or a trap.
#![tactic(auto)]

mod running;
pub mod turned;

pub use running::turn;
pub use turned::Turned;
