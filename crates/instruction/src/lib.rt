// Instruction words by name.
//
//   bit 23      18 17   15 14            0
//      |   code   |   d   |    y or m     |    third digit d, operand y or address m
//      |   code   | a | b |       m       |    a: indirect, b: index register
#![tactic(auto)]

pub mod action;
pub mod decoding;
pub mod digit;
pub mod instruction;
pub mod interval;
pub mod operation;
pub mod place;

pub use action::{Action, Count, Extension, Relation, Shifted, Target};
pub use decoding::decode;
pub use instruction::{Instruction, Search};
pub use interval::Interval;
pub use operation::{Change, Operation, Source, Take, TakeTwo};
pub use place::{Mode, Place};
