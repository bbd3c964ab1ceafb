ghost use Rattle.std.specs.Prelude.{vec_items};
ghost use Rattle.deck.specs.Commands.{meant, command, bytes_from};
ghost use Rattle.deck.specs.Readings.{Means};

use crate::command::Command;
use crate::count::exactly;
use crate::keyword::Keyword;
use crate::problem::Problem;
use std::alloc::Global;

// Numbers as bytes.
fn bytes_of(heap: Global, numbers: &[u32]) -> Result<Vec<u8>, Problem>
    ensures { Means result vec_items (bytes_from 0 numbers.now) }
{
    let mut bytes = Vec::new(heap);
    for n in numbers {
        let byte = u8::try_from(*n).map_err(|_| Problem::Byte)?;
        bytes.push(byte)?;
    }
    Ok(bytes)
}

fn image(heap: Global, numbers: &[u32]) -> Result<Command, Problem>
    ensures { Means result meant (command Keyword.Image numbers.now) }
{
    Ok(Command::Image(bytes_of(heap, numbers)?))
}

fn bytes(heap: Global, numbers: &[u32]) -> Result<Command, Problem>
    ensures { Means result meant (command Keyword.Bytes numbers.now) }
{
    let (offset, rest) = numbers.split_first().ok_or(Problem::Few)?;
    let bytes = bytes_of(heap, rest)?;
    Ok(Command::Bytes {
        offset: *offset,
        bytes,
    })
}

fn words(heap: Global, numbers: &[u32]) -> Result<Command, Problem>
    ensures { Means result meant (command Keyword.Words numbers.now) }
{
    let (offset, rest) = numbers.split_first().ok_or(Problem::Few)?;
    let words = Vec::from_slice(heap, rest)?;
    Ok(Command::Words {
        offset: *offset,
        words,
    })
}

fn page(numbers: &[u32]) -> Result<Command, Problem>
    ensures { Means result meant (command Keyword.Page numbers.now) }
{
    let [group, entry, page, start, length, flag] = exactly::<6>(numbers)?;
    if flag > 1 {
        return Err(Problem::Flag);
    }
    Ok(Command::Page {
        group,
        entry,
        page,
        start,
        length,
        write: flag == 1,
    })
}

fn load(numbers: &[u32]) -> Result<Command, Problem>
    ensures { Means result meant (command Keyword.Load numbers.now) }
{
    let [group, a, q, b1, b2, b3, p] = exactly::<7>(numbers)?;
    Ok(Command::Load {
        group,
        a,
        q,
        b1,
        b2,
        b3,
        p,
    })
}

fn turn(numbers: &[u32]) -> Result<Command, Problem>
    ensures { Means result meant (command Keyword.Turn numbers.now) }
{
    let [group, length, keys] = exactly::<3>(numbers)?;
    Ok(Command::Turn {
        group,
        length,
        keys,
    })
}

// The command of a keyword with these numbers.
pub(crate) fn command_of(
    heap: Global,
    keyword: Keyword,
    numbers: &[u32],
) -> Result<Command, Problem>
    ensures { Means result meant (command keyword numbers.now) }
{
    match keyword {
        Keyword::Plain => {
            let [words] = exactly::<1>(numbers)?;
            Ok(Command::Plain(words))
        }
        Keyword::Packed => {
            let [bytes] = exactly::<1>(numbers)?;
            Ok(Command::Packed(bytes))
        }
        Keyword::Words => words(heap, numbers),
        Keyword::Bytes => bytes(heap, numbers),
        Keyword::Pair => {
            let [] = exactly::<0>(numbers)?;
            Ok(Command::Pair)
        }
        Keyword::Protect => {
            let [] = exactly::<0>(numbers)?;
            Ok(Command::Protect)
        }
        Keyword::Machine => {
            let [kind] = exactly::<1>(numbers)?;
            Ok(Command::Machine(kind))
        }
        Keyword::Range => {
            let [low, high] = exactly::<2>(numbers)?;
            Ok(Command::Range { low, high })
        }
        Keyword::Image => image(heap, numbers),
        Keyword::Page => page(numbers),
        Keyword::Absent => {
            let [group, entry] = exactly::<2>(numbers)?;
            Ok(Command::Absent { group, entry })
        }
        Keyword::Load => load(numbers),
        Keyword::Turn => turn(numbers),
        Keyword::Report => {
            let [group] = exactly::<1>(numbers)?;
            Ok(Command::Report(group))
        }
        Keyword::Read => {
            let [address] = exactly::<1>(numbers)?;
            Ok(Command::Read(address))
        }
        Keyword::Write => {
            let [address, word] = exactly::<2>(numbers)?;
            Ok(Command::Write { address, word })
        }
        Keyword::List => {
            let [address, count] = exactly::<2>(numbers)?;
            Ok(Command::List { address, count })
        }
        Keyword::Where => {
            let [group, address] = exactly::<2>(numbers)?;
            Ok(Command::Where { group, address })
        }
    }
}
