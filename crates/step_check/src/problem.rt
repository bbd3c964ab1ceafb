use answers::Refusal;
use std::alloc::{AllocError, AllocFailed};
use std::fmt;

// Why a line of the table is bad, or a case cannot be carried out.
#[derive(Clone, Copy)]
pub(crate) enum Problem {
    // an item that no case has, or has not on this side of `after`, or not with these numbers
    Item,
    // a word that is no octal number
    Number,
    // a number too large for what it is given for
    Large,
    // an item before the first case
    NoCase,
    // a second line that begins with `after`
    SecondAfter,
    // no line that begins with `after`, or neither p nor a trap from there on
    NoAfter,
    // a page entry outside the limits
    Page,
    // no memory left
    Memory,
}

impl fmt::Display for Problem {
    fn fmt<W: fmt::Write>(&self, f: &mut fmt::Formatter<W>) -> fmt::Result {
        f.write_str(match self {
            Problem::Item => "no such item here",
            Problem::Number => "not an octal number",
            Problem::Large => "number too large",
            Problem::NoCase => "no case yet",
            Problem::SecondAfter => "a second after",
            Problem::NoAfter => "neither p nor trap after",
            Problem::Page => "no such page setting",
            Problem::Memory => "no memory",
        })
    }
}

impl<T: Drop> From<AllocFailed<T>> for Problem {
    fn from(_refused: AllocFailed<T>) -> Problem {
        Problem::Memory
    }
}

impl From<AllocError> for Problem {
    fn from(_error: AllocError) -> Problem {
        Problem::Memory
    }
}

impl From<Refusal> for Problem {
    fn from(_refusal: Refusal) -> Problem {
        Problem::Page
    }
}
