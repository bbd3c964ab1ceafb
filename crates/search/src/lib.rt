// The two searches, MEQ and MTH, over a group's view of any store.
#![tactic(auto)]

mod seeking;

pub use seeking::search;
