ghost use Rattle.std.specs.Prelude.{◌≡◌, ℕ, List, Result, Ok, refl};
ghost use Rattle.session.specs.declared.memory.Memory.{Memory};
ghost use Rattle.session.specs.declared.misplaced.Misplaced.{Misplaced};
ghost use Rattle.session.specs.declared.memory.Memory.TheVariants.{Words, Bytes};
ghost use Rattle.session.specs.Built.{bytes_of, core_over, filled, may_fill, words_of};
ghost use Rattle.store.specs.Meaning.{Meaning, reads};
ghost use Rattle.store.specs.Packed.{packed};
ghost use Rattle.store.specs.Plain.{plain};

use crate::memory::{Block, Memory};
use crate::misplaced::Misplaced;
use answers::Fault;
use store::{Packed, Plain, Store};

// The most words of a core that a deck builds: enough to see a size cut, and little enough to hold.
const MOST_WORDS: u32 = 1_048_576;

// What the memory of a core is counted in: 32-bit words, or bytes.
pub trait Unit: Copy {
    const ZERO: Self;

    // The most of them that a deck builds a core of.
    const MOST: u32;

    ghost ZERO: { Self };

    ghost MOST: { ℕ };

    // The memory that holds so many of them.
    ghost memory: { List Self → Memory };

    // Those that a memory holds, or why it holds others.
    ghost held: { Memory → Result (List Self) Misplaced };

    // The core over so many of them.
    ghost core: { List Self → Meaning };

    fn memory(units: Vec<Self>) -> Memory
        ensures { result ≡ memory units.items };

    // Puts contents into a memory of this unit from a place on, or changes nothing.
    fn fill(into: &mut Memory, place: usize, contents: &[Self]) -> Result<(), Misplaced>
        ensures answer { result ≡ may_fill (held into.old) place contents.now }
        ensures after { into.new ≡ filled (held into.old) memory place contents.now into.old };

    // What the core over these answers at an address.
    fn read(units: &mut [Self], address: u32) -> Result<u32, Fault>
        ensures answer { result ≡ reads (core units.old) address }
        ensures same { units.new ≡ units.old };

    // What a memory is made of is what it holds.
    ghost holds: { (xs : List Self) → held (memory xs) ≡ Ok xs };

    // The core over that memory is the core over these.
    ghost is_core: { (xs : List Self) → core_over (memory xs) ≡ core xs };

    // A clone is the same number.
    ghost clones: { (x y : Self) → Self.is_clone x y → y ≡ x };
}

impl Unit for u32 {
    const ZERO: u32 = 0;

    const MOST: u32 = MOST_WORDS;

    ghost ZERO = { 0 };

    ghost MOST = { 1048576 };

    ghost memory = { Words };

    ghost held = { words_of };

    ghost core = { plain };

    ghost holds = { λ _. refl };

    ghost is_core = { λ _. refl };

    ghost clones = { λ _ _ e. e };

    fn memory(units: Vec<u32>) -> Memory
        ensures { result ≡ Words units.items }
    {
        Memory::Words(Block { units })
    }

    fn fill(into: &mut Memory, place: usize, contents: &[u32]) -> Result<(), Misplaced> {
        match into {
            Memory::Words(block) => block.put(place, contents),
            Memory::Bytes(_) => Err(Misplaced::NotPlain),
        }
    }

    fn read(units: &mut [u32], address: u32) -> Result<u32, Fault> {
        Plain::new(units).read(address)
    }
}

impl Unit for u8 {
    const ZERO: u8 = 0;

    const MOST: u32 = 3 * MOST_WORDS;

    ghost ZERO = { 0 };

    ghost MOST = { 3145728 };

    ghost memory = { Bytes };

    ghost held = { bytes_of };

    ghost core = { packed };

    ghost holds = { λ _. refl };

    ghost is_core = { λ _. refl };

    ghost clones = { λ _ _ e. e };

    fn memory(units: Vec<u8>) -> Memory
        ensures { result ≡ Bytes units.items }
    {
        Memory::Bytes(Block { units })
    }

    fn fill(into: &mut Memory, place: usize, contents: &[u8]) -> Result<(), Misplaced> {
        match into {
            Memory::Words(_) => Err(Misplaced::NotPacked),
            Memory::Bytes(block) => block.put(place, contents),
        }
    }

    fn read(units: &mut [u8], address: u32) -> Result<u32, Fault> {
        Packed::new(units).read(address)
    }
}
