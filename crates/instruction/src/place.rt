ghost use Rattle.std.specs.Prelude.{◌≡◌};
ghost use Rattle.instruction.specs.Places.{placed};

use crate::digit::Digit;
use ones::{Address, Word};
use registers::Index;

// What names the effective address: m, indexed, or by way of the word there. The index is B0 where none is named, and the
// mode says how to read the words on the way, so an Option of the index would say no more than both do.
#[derive(Clone, Copy, PartialEq, Eq, Debug)]
pub struct Place {
    pub mode: Mode,
    pub indirect: bool,
    pub index: Index,
    pub m: Address,
}

// Whether bits 16 and 15 name an index register.
#[derive(Clone, Copy, PartialEq, Eq, Debug)]
pub enum Mode {
    Indexed,
    Unindexed,
}

impl Place {
    // The place in the low 18 bits of a word.
    pub fn of(mode: Mode, word: Word) -> Place
        ensures { result ≡ placed mode word }
    {
        let bits = word.bits();
        Place {
            mode,
            indirect: bits / 0o400_000 % 2 == 1,
            index: match mode {
                Mode::Indexed => Index::from(Digit::low(bits / 0o100_000)),
                Mode::Unindexed => Index::B0,
            },
            m: Address::low(bits),
        }
    }
}
