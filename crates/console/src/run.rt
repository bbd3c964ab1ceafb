// A deck from its first line to its last.
use crate::calls::Calls;
use crate::desk::Desk;
use crate::failure::Failure;
use crate::printout::Printout;
use deck::Command;
use layers::{Pair, Ranges};
use session::{Memory, Pile};
use std::io::BufRead;
use std::ops::RangeInclusive;
use store::{Packed, Plain, Store};

// The lines that are left, and their numbers.
#[derive(Drop)]
struct Lines<R> {
    reader: R,
    numbers: RangeInclusive<u64>,
    // one for all lines: a vector for each, as `split` makes it, takes longer than a short line itself
    line: Vec<u8>,
}

pub(crate) fn run<R: BufRead + Drop>(rt: &HostRuntime, reader: R) -> Result<(), Failure> {
    let mut desk = Desk::new(Printout::new(rt));
    let mut lines = Lines {
        reader,
        numbers: 1..=u64::MAX,
        line: Vec::new(rt.alloc()),
    };
    let Some(pile) = obey_lines(&mut desk, &mut lines)? else {
        return Ok(());
    };
    let Desk {
        printout,
        ranges,
        ..
    } = desk;
    let rest = Rest {
        printout,
        ranges: ranges.unwrap_or(Ranges::new()),
        lines,
    };
    rest.run_pile(pile)
}

// What obeys the commands of a part of the deck.
pub(crate) trait Obey {
    fn printout(&self) -> &Printout<'_>;

    // The pile, where the command makes the machine over it.
    fn obey(&mut self, command: Command) -> Result<Option<Pile>, Failure>;
}

// Up to the line that makes the machine, or to the last.
fn obey_lines<O: Obey, R: BufRead + Drop>(
    part: &mut O,
    lines: &mut Lines<R>,
) -> Result<Option<Pile>, Failure> {
    let Lines {
        reader,
        numbers,
        line,
    } = lines;
    for number in numbers {
        line.clear();
        if reader.read_until(b'\n', line).map_err(|_| Failure::Unread)? == 0 {
            break;
        }
        let text = line.strip_suffix(b"\n").unwrap_or(line);
        match deck::read_line(part.printout().heap(), text) {
            Ok(Some(command)) => match part.obey(command) {
                Ok(None) => {}
                Err(Failure::Misplaced(misplaced)) => part.printout().line(number, misplaced)?,
                made => return made,
            },
            Ok(None) => {}
            Err(problem) => part.printout().line(number, problem)?,
        }
    }
    Ok(None)
}

// What is left of a deck once its machine is made.
#[derive(Drop)]
struct Rest<'a, R> {
    printout: Printout<'a>,
    ranges: Ranges,
    lines: Lines<R>,
}

impl<R: BufRead + Drop> Rest<'_, R> {
    fn run_pile(self, pile: Pile) -> Result<(), Failure> {
        match pile {
            Pile::One(memory) => self.run_one(memory),
            Pile::Pair(first, second) => self.run_pair(first, second),
            Pile::Nothing | Pile::Image(_) | Pile::Two(_, _) => Ok(()),
        }
    }

    // An arm for each unit, here and below: the cores over them are of two types.
    fn run_one(self, memory: Memory) -> Result<(), Failure> {
        match memory {
            Memory::Words(mut a) => self.run(Plain::new(a.units.as_mut_slice())),
            Memory::Bytes(mut a) => self.run(Packed::new(a.units.as_mut_slice())),
        }
    }

    fn run_pair(self, first: Memory, second: Memory) -> Result<(), Failure> {
        match first {
            Memory::Words(mut a) => self.run_behind(Plain::new(a.units.as_mut_slice()), second),
            Memory::Bytes(mut a) => self.run_behind(Packed::new(a.units.as_mut_slice()), second),
        }
    }

    fn run_behind<F: Store + Drop>(self, first: F, second: Memory) -> Result<(), Failure> {
        match second {
            Memory::Words(mut b) => {
                self.run(Pair::new(first, Plain::new(b.units.as_mut_slice())))
            }
            Memory::Bytes(mut b) => {
                self.run(Pair::new(first, Packed::new(b.units.as_mut_slice())))
            }
        }
    }

    fn run<C: Store + Drop>(self, core: C) -> Result<(), Failure> {
        let Rest {
            printout,
            ranges,
            mut lines,
        } = self;
        let mut calls = Calls::new(printout, core, ranges);
        obey_lines(&mut calls, &mut lines)?;
        Ok(())
    }
}
