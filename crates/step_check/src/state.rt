// Registers and core, before an instruction or after it.
use crate::item;
use crate::problem::Problem;
use ones::Word;
use registers::{Index, Registers};
use std::alloc::{AllocError, Global};

// All addresses of a group.
const WORDS: u32 = 32_768;

// An unlisted word says where it stands: its code is none of the machine's, and its low 15 bits are its address.
const UNLISTED: u32 = 0o5500_0000;

// An indirect word with a set, b = 0 and m = 00000.
const INDIRECT: u32 = 0o40_0000;

#[derive(Clone, Drop)]
pub(crate) struct State {
    pub(crate) registers: Registers,
    pub(crate) core: Vec<u32>,
}

impl State {
    pub(crate) fn new(heap: Global) -> Result<State, AllocError> {
        Ok(State {
            registers: Registers::default(),
            core: (UNLISTED..UNLISTED + WORDS).collect(heap)?,
        })
    }

    pub(crate) fn write(&mut self, address: u32, word: u32) -> Result<(), Problem> {
        let word: Word = item::number(word)?;
        let cell = self.core.get_mut(address as usize).ok_or(Problem::Large)?;
        *cell = word.bits() as u32;
        Ok(())
    }

    // The instruction: its address, and its word.
    pub(crate) fn place(&mut self, p: u32, word: u32) -> Result<(), Problem> {
        self.registers.p = item::number(p)?;
        self.write(p, word)
    }

    // Indirect words from an address on, each with a set and the next address in it.
    pub(crate) fn chain(&mut self, first: u32, count: u32) -> Result<(), Problem> {
        for address in (first..=u32::MAX).take(count as usize) {
            self.write(address, address.saturating_add(INDIRECT + 1))?;
        }
        Ok(())
    }

    pub(crate) fn load(&mut self, register: &str, n: u32) -> Result<(), Problem> {
        match register {
            "a" => self.registers.a = item::number(n)?,
            "q" => self.registers.q = item::number(n)?,
            "p" => self.registers.p = item::number(n)?,
            "latch" => self.registers.latch = item::flag(n)?,
            _ => self.registers.set_index(index(register)?, item::number(n)?),
        }
        Ok(())
    }
}

fn index(register: &str) -> Result<Index, Problem> {
    match register {
        "b1" => Ok(Index::B1),
        "b2" => Ok(Index::B2),
        "b3" => Ok(Index::B3),
        _ => Err(Problem::Item),
    }
}
