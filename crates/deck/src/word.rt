ghost use Rattle.std.specs.Prelude.{◌≡◌, vec_items};
ghost use Rattle.std.specs.Iterator.{YieldsFirstRef, item_count};
ghost use Rattle.deck.specs.Readings.{numbers, Means};
ghost use Rattle.deck.specs.Words.{blank, separated, words};

use crate::number::read_number;
use crate::problem::Problem;
use std::alloc::Global;

// The words of a text, the first one first.
#[derive(Drop)]
pub(crate) struct Words<'a> {
    text: &'a [u8],
}

impl<'a> Words<'a> {
    // The words of a line, without its comment.
    pub(crate) fn of(line: &'a [u8]) -> Words<'a>
        ensures { separated result.text.now ≡ words line.now }
    {
        let end = line.iter().position(|b| *b == b'#').unwrap_or(line.len());
        Words { text: &line[..end] }
    }
}

impl<'a> Iterator for Words<'a> {
    type Item = &'a [u8];

    ghost next_gives = { YieldsFirstRef (λ s. separated s.text.now) };

    ghost remaining = { item_count (λ s. separated s.text.now) };

    fn next(&mut self) -> Option<&'a [u8]> {
        let text = self.text;
        let start = text.iter().position(|b| !is_blank(*b))?;
        let rest = &text[start..];
        let end = rest.iter().position(|b| is_blank(*b)).unwrap_or(rest.len());
        let (word, after) = rest.split_at(end);
        self.text = after;
        Some(word)
    }
}

fn is_blank(b: u8) -> bool
    ensures { result ≡ blank b }
{
    matches!(b, b' ' | b'\t' | b'\r')
}

// Words as numbers.
pub(crate) fn read_numbers(heap: Global, words: Words<'_>) -> Result<Vec<u32>, Problem>
    ensures { Means result vec_items (numbers (separated words.entry.text.now)) }
{
    let mut found = Vec::new(heap);
    for word in words {
        found.push(read_number(word)?)?;
    }
    Ok(found)
}
