ghost use Rattle.std.specs.Prelude.{◌≡◌, Some};
ghost use Rattle.deck.specs.Names.{problem_name};
ghost use Rattle.deck.specs.declared.problem.Problem.TheVariants.{Memory};

use std::alloc::{AllocError, AllocFailed};
use std::fmt;

// Why a line is bad.
#[derive(Clone, Copy, PartialEq, Eq, Debug)]
pub enum Problem {
    // a first word that names no command
    Unknown,
    // a word that is no number
    Number,
    // a number above 4294967295
    Large,
    // too few numbers
    Few,
    // too many numbers
    Many,
    // a byte above 255
    Byte,
    // a flag above 1
    Flag,
    // a style that is neither console nor plain
    Style,
    // no memory to read the line
    Memory,
}

impl fmt::Display for Problem {
    ghost output = { λ x. Some (problem_name x) };

    fn fmt<W: fmt::Write>(&self, f: &mut fmt::Formatter<W>) -> fmt::Result {
        f.write_str(match self {
            Problem::Unknown => "unknown word",
            Problem::Number => "not a number",
            Problem::Large => "number above 4294967295",
            Problem::Few => "too few numbers",
            Problem::Many => "too many numbers",
            Problem::Byte => "byte above 255",
            Problem::Flag => "flag above 1",
            Problem::Style => "neither console nor plain",
            Problem::Memory => "no memory",
        })
    }
}

impl<T: Drop> From<AllocFailed<T>> for Problem {
    ghost from_gives = { λ _ r. r ≡ Memory };

    fn from(_refused: AllocFailed<T>) -> Problem {
        Problem::Memory
    }
}

impl From<AllocError> for Problem {
    ghost from_gives = { λ _ r. r ≡ Memory };

    fn from(_error: AllocError) -> Problem {
        Problem::Memory
    }
}
