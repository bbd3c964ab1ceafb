ghost use Rattle.mnemonic.specs.Texts.{listing};
ghost use Rattle.std.specs.Prelude.{Some};

use crate::symbolic::Symbolic;
use instruction::{Instruction, decode};
use ones::Word;
use printing::word::ConsoleWord;
use std::fmt;

// A word after its address, and the instruction that it is.
#[derive(Clone, Copy)]
pub struct Listing {
    pub address: u32,
    pub word: u32,
}

impl fmt::Display for Listing {
    ghost output = { λ x. Some (listing x.address x.word) };

    fn fmt<W: fmt::Write>(&self, f: &mut fmt::Formatter<W>) -> fmt::Result {
        let Listing { address, word } = *self;
        let shown = ConsoleWord { address, word };
        let word = Word::low(u64::from(word));
        match decode(word) {
            Instruction::Illegal => write!(f, "{shown}"),
            _ => write!(f, "{shown}  {}", Symbolic(word)),
        }
    }
}
