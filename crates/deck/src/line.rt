ghost use Rattle.std.specs.Prelude.{◌≡◌, Some};
ghost use Rattle.deck.specs.Commands.{meant};
ghost use Rattle.deck.specs.Lines.{recorded, ordered, named, reading};
ghost use Rattle.deck.specs.Readings.{Means};
ghost use Rattle.deck.specs.Words.{separated};
ghost use Rattle.std.specs.Option.{option_map};

use crate::command::{Command, Style};
use crate::keyword::Keyword;
use crate::make::command_of;
use crate::problem::Problem;
use crate::word::{Words, read_numbers};
use std::alloc::Global;

// What stands after `record`.
fn read_record(mut words: Words<'_>) -> Result<Command, Problem>
    ensures { Means result meant (recorded (separated words.entry.text.now)) }
{
    let word = words.next().ok_or(Problem::Few)?;
    let style = Style::try_from(word)?;
    if words.next().is_some() {
        return Err(Problem::Many);
    }
    Ok(Command::Record(style))
}

// The numbers of another command.
fn read_ordered(heap: Global, keyword: Keyword, words: Words<'_>) -> Result<Command, Problem>
    ensures { Means result meant (ordered (Some keyword) (separated words.entry.text.now)) }
{
    let numbers = read_numbers(heap, words)?;
    command_of(heap, keyword, numbers.as_slice())
}

// A command's name, and what stands after it.
fn read_named(heap: Global, name: &[u8], words: Words<'_>) -> Result<Command, Problem>
    ensures { Means result meant (named name.now (separated words.entry.text.now)) }
{
    if name == b"record".as_slice() {
        return read_record(words);
    }
    let keyword = Keyword::try_from(name)?;
    read_ordered(heap, keyword, words)
}

// Reads one line, without its newline; None where there is nothing on it.
pub fn read_line(heap: Global, line: &[u8]) -> Result<Option<Command>, Problem>
    ensures { Means result (option_map meant) (reading line.now) }
{
    let mut words = Words::of(line);
    let Some(name) = words.next() else {
        return Ok(None);
    };
    let command = read_named(heap, name, words)?;
    Ok(Some(command))
}
