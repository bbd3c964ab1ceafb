// Reads a line of the operator's deck language.
#![tactic(auto)]

pub mod command;
mod count;
mod keyword;
pub mod line;
mod make;
pub mod number;
pub mod problem;
mod word;

pub use command::{Command, Style};
pub use line::read_line;
pub use problem::Problem;
