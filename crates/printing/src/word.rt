// A word that was read, in both styles.
ghost use Rattle.printing.specs.Texts.{console_word, plain_word};
ghost use Rattle.std.specs.Prelude.{Some};

use crate::octal::{OctalAddress, OctalWord};
use std::fmt;

// The word as a number.
#[derive(Drop)]
pub struct PlainWord(pub u32);

impl fmt::Display for PlainWord {
    ghost output = { λ x. Some (plain_word x.0) };

    fn fmt<W: fmt::Write>(&self, f: &mut fmt::Formatter<W>) -> fmt::Result {
        write!(f, "read ok {}", self.0)
    }
}

// The word after its address.
#[derive(Drop)]
pub struct ConsoleWord {
    pub address: u32,
    pub word: u32,
}

impl fmt::Display for ConsoleWord {
    ghost output = { λ x. Some (console_word x.address x.word) };

    fn fmt<W: fmt::Write>(&self, f: &mut fmt::Formatter<W>) -> fmt::Result {
        write!(
            f,
            "{}  {}",
            OctalAddress(self.address),
            OctalWord { number: self.word }
        )
    }
}
