// Stores over other stores: a pair, and a protection.
#![tactic(auto)]

pub mod pair;
pub mod protection;
pub mod range;
pub mod ranges;

pub use pair::Pair;
pub use protection::Protection;
pub use range::Ranges;
