// What a deck builds and chooses before its machine is made.
use crate::failure::Failure;
use crate::printout::Printout;
use crate::run::Obey;
use deck::Command;
use image::Image;
use layers::Ranges;
use printing::call::Call;
use session::{Memory, Misplaced, Pile};
use std::mem;

#[derive(Drop)]
pub(crate) struct Desk<'a> {
    pub(crate) printout: Printout<'a>,
    pub(crate) ranges: Option<Ranges>,
    pile: Pile,
}

impl<'a> Desk<'a> {
    pub(crate) fn new(printout: Printout<'a>) -> Desk<'a> {
        Desk {
            printout,
            ranges: None,
            pile: Pile::Nothing,
        }
    }

    fn add(&mut self, memory: Memory) -> Result<(), Misplaced> {
        if self.ranges.is_some() {
            return Err(Misplaced::Protected);
        }
        self.pile.add(memory)
    }

    fn protect(&mut self) -> Result<(), Misplaced> {
        if self.ranges.is_some() {
            return Err(Misplaced::Protected);
        }
        self.pile.whole()?;
        self.ranges = Some(Ranges::new());
        Ok(())
    }

    fn add_range(&mut self, low: u32, high: u32) -> Result<(), Failure> {
        let Some(ranges) = &mut self.ranges else {
            return Err(Failure::from(Misplaced::Unprotected));
        };
        let answer = ranges.add(low, high);
        Ok(self.printout.done(Call::Range, answer)?)
    }

    fn take_pile(&mut self, kind: u32) -> Result<Pile, Misplaced> {
        if kind != 0 {
            return Err(Misplaced::Kind);
        }
        self.pile.whole()?;
        Ok(mem::replace(&mut self.pile, Pile::Nothing))
    }

    fn take_image(&mut self, bytes: &[u8]) -> Result<(), Failure> {
        let answer = Image::read(bytes);
        if let Ok(image) = answer {
            let words = Vec::from_slice(self.printout.heap(), image.words)?;
            self.pile.keep_image(words);
        }
        Ok(self.printout.image(answer)?)
    }

    fn read(&mut self, address: u32) -> Result<(), Failure> {
        let answer = self.pile.read(address).ok_or(Misplaced::NoCore)?;
        Ok(self.printout.read(address, answer)?)
    }

    fn list(&mut self, address: u32, count: u32) -> Result<(), Failure> {
        let pile = &mut self.pile;
        self.printout.list(address, count, |at| pile.read(at))
    }
}

impl Obey for Desk<'_> {
    fn printout(&self) -> &Printout<'_> {
        &self.printout
    }

    fn obey(&mut self, command: Command) -> Result<Option<Pile>, Failure> {
        let heap = self.printout.heap();
        match command {
            Command::Record(style) => self.printout.style = style,
            Command::Plain(count) => self.add(Memory::zeros::<u32>(heap, count)?)?,
            Command::Packed(count) => self.add(Memory::zeros::<u8>(heap, count)?)?,
            Command::Words { offset, words } => self.pile.put(offset as usize, words.as_slice())?,
            Command::Bytes { offset, bytes } => self.pile.put(offset as usize, bytes.as_slice())?,
            Command::Pair => self.pile.pair()?,
            Command::Protect => self.protect()?,
            Command::Range { low, high } => self.add_range(low, high)?,
            Command::Image(bytes) => self.take_image(&bytes)?,
            Command::Read(address) => self.read(address)?,
            Command::List { address, count } => self.list(address, count)?,
            Command::Machine(kind) => return Ok(Some(self.take_pile(kind)?)),
            _ => return Err(Failure::from(Misplaced::Unmade)),
        }
        Ok(None)
    }
}
