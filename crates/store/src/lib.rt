// Core stores: what a store means, and the two cores over the caller's memory.
#![tactic(auto)]

pub mod faithful;
pub mod lend;
pub mod lent;
pub mod packed;
pub mod plain;
pub mod store;

pub use faithful::Faithful;
pub use packed::Packed;
pub use plain::Plain;
pub use store::{Store, WORDS, within};
