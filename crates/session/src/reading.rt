ghost use Rattle.std.specs.Prelude.{◌≡◌};
ghost use Rattle.session.specs.Built.{core_over, read_last};
ghost use Rattle.store.specs.Meaning.{reads};

use crate::memory::{Block, Memory, Pile};
use crate::unit::Unit;
use answers::Fault;

impl Pile {
    // What the core named last answers at an address; none where nothing is built.
    pub fn read(&mut self, address: u32) -> Option<Result<u32, Fault>>
        ensures answer { result ≡ read_last self.old address }
        ensures same { self.new ≡ self.old }
    {
        match self {
            Pile::Nothing => None,
            Pile::Image(words) => Some(words.read(address)),
            Pile::One(last) => Some(last.read(address)),
            Pile::Two(_, last) => Some(last.read(address)),
            Pile::Pair(_, last) => Some(last.read(address)),
        }
    }
}

impl Memory {
    fn read(&mut self, address: u32) -> Result<u32, Fault>
        ensures answer { result ≡ reads (core_over self.old) address }
        ensures same { self.new ≡ self.old }
    {
        match self {
            Memory::Words(words) => words.read(address),
            Memory::Bytes(bytes) => bytes.read(address),
        }
    }
}

impl<U: Unit> Block<U> {
    fn read(&mut self, address: u32) -> Result<u32, Fault>
        ensures answer { result ≡ reads (U.core self.old) address }
        ensures same { self.new ≡ self.old }
    {
        U::read(self.units.as_mut_slice(), address)
    }
}
