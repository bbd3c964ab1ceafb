#![tactic(auto)]

mod logic;
pub mod number;
mod order;
mod parts;
mod shifts;
mod sums;
mod widths;

pub use number::Ones;

// An address or an index.
pub type Address = Ones<15>;

// A word of memory or of a register.
pub type Word = Ones<24>;

// Two words as one number.
pub type Double = Ones<48>;
