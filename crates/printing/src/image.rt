// An image that was accepted, in both styles.
ghost use Rattle.std.specs.Prelude.{◌≡◌, IfOk, Some, string_bytes};
ghost use Rattle.printing.specs.Texts.{console_image, plain_image};

use crate::octal::OctalKeys;
use std::alloc::{AllocError, Global};
use std::fmt;

// The image for people: keys, turn length, how many words.
#[derive(Drop)]
pub struct ConsoleImage {
    pub keys: u8,
    pub length: u16,
    pub words: usize,
}

impl fmt::Display for ConsoleImage {
    ghost output = { λ x. Some (console_image x.keys x.length x.words) };

    fn fmt<W: fmt::Write>(&self, f: &mut fmt::Formatter<W>) -> fmt::Result {
        let ConsoleImage { length, words, .. } = self;
        let keys = OctalKeys {
            number: u32::from(self.keys),
        };
        write!(f, "image: keys {keys}, turn length {length}, words {words}")
    }
}

// The image as numbers: keys, turn length, the bytes of its words.
#[derive(Clone, Copy)]
pub struct PlainImage<'a> {
    pub keys: u8,
    pub length: u16,
    pub words: &'a [u8],
}

impl fmt::Display for PlainImage<'_> {
    ghost output = { λ x. Some (plain_image x.keys x.length x.words.now) };

    fn fmt<W: fmt::Write>(&self, f: &mut fmt::Formatter<W>) -> fmt::Result {
        write!(f, "image ok {} {}", self.keys, self.length)?;
        for number in self.words {
            write!(f, " {number}")?;
        }
        Ok(())
    }
}

// The same as a text of its own.
pub fn plain_image(heap: Global, keys: u8, length: u16, words: &[u8]) -> Result<String, AllocError>
    ensures { IfOk result (λ line. string_bytes line ≡ plain_image keys length words.now) }
{
    let image = PlainImage {
        keys,
        length,
        words,
    };
    image.to_string(heap)
}
