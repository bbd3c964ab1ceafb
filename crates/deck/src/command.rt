ghost use Rattle.std.specs.Prelude.{◌≡◌};
ghost use Rattle.deck.specs.Lines.{style};

use crate::problem::Problem;

// How the record of a deck is printed.
#[derive(Clone, Copy, PartialEq, Eq, Debug)]
pub enum Style {
    Console,
    Plain,
}

impl TryFrom<&[u8]> for Style {
    type Error = Problem;

    ghost try_from_gives = { λ word r. r ≡ style word.now };

    fn try_from(word: &[u8]) -> Result<Style, Problem> {
        match word {
            b"console" => Ok(Style::Console),
            b"plain" => Ok(Style::Plain),
            _ => Err(Problem::Style),
        }
    }
}

// One line of a deck.
#[derive(Drop)]
pub enum Command {
    Record(Style),
    Plain(u32),
    Packed(u32),
    Words {
        offset: u32,
        words: Vec<u32>,
    },
    Bytes {
        offset: u32,
        bytes: Vec<u8>,
    },
    Pair,
    Protect,
    Machine(u32),
    Range {
        low: u32,
        high: u32,
    },
    Image(Vec<u8>),
    Page {
        group: u32,
        entry: u32,
        page: u32,
        start: u32,
        length: u32,
        write: bool,
    },
    Absent {
        group: u32,
        entry: u32,
    },
    Load {
        group: u32,
        a: u32,
        q: u32,
        b1: u32,
        b2: u32,
        b3: u32,
        p: u32,
    },
    Turn {
        group: u32,
        length: u32,
        keys: u32,
    },
    Report(u32),
    Read(u32),
    Write {
        address: u32,
        word: u32,
    },
    List {
        address: u32,
        count: u32,
    },
    Where {
        group: u32,
        address: u32,
    },
}
