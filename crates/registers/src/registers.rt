ghost use Rattle.std.specs.Prelude.{◌≡◌};
ghost use Rattle.registers.specs.Registers.{index, with_index, with_p, zeros};
ghost use Rattle.ones.specs.Numbers.{counted};

use crate::index::Index;
use ones::{Address, Word};

// What the instructions of a group work with.
#[derive(Clone, Copy, PartialEq, Eq, Debug)]
pub struct Registers {
    pub a: Word,
    pub q: Word,
    pub b1: Address,
    pub b2: Address,
    pub b3: Address,
    // the address of the instruction
    pub p: Address,
    // a sum has overflowed since the last register load
    pub latch: bool,
}

impl Default for Registers {
    ghost is_default = { λ r. r ≡ zeros };

    fn default() -> Registers {
        Registers {
            a: Word::low(0),
            q: Word::low(0),
            b1: Address::low(0),
            b2: Address::low(0),
            b3: Address::low(0),
            p: Address::low(0),
            latch: false,
        }
    }
}

impl Registers {
    pub fn index(&self, b: Index) -> Address
        ensures { result ≡ index self.now b }
    {
        match b {
            Index::B0 => Address::low(0),
            Index::B1 => self.b1,
            Index::B2 => self.b2,
            Index::B3 => self.b3,
        }
    }

    pub fn set_index(&mut self, b: Index, value: Address)
        ensures { self.new ≡ with_index self.old b value }
    {
        match b {
            Index::B0 => {}
            Index::B1 => self.b1 = value,
            Index::B2 => self.b2 = value,
            Index::B3 => self.b3 = value,
        }
    }

    // Goes n instructions on.
    pub fn go_on(&mut self, n: u32)
        ensures { self.new ≡ with_p self.old (counted self.old.p n) }
    {
        self.p = self.p.counted(n);
    }
}
