// One instruction of a group, over its view of any store.
#![tactic(auto)]

mod stepping;

pub use stepping::step;
