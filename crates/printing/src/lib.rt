// Answers as lines of text, for people and for comparing.
// The two styles of an answer are two types, also where their fields are the same: a `Display` has one text.
#![tactic(auto)]

pub mod call;
pub mod image;
pub mod lead;
pub mod octal;
pub mod refused;
pub mod word;

pub use octal::{OctalAddress, OctalWord};
