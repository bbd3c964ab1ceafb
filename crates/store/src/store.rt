ghost use Rattle.std.specs.Prelude.{◌≡◌, ℕ};
ghost use Rattle.store.specs.Core.{below};
ghost use Rattle.store.specs.Meaning.{Meaning, Sound, reads, after, settled};

use answers::{Fault, Layer};

// The most addresses that a store has.
pub const WORDS: u32 = 262_144;

// The answer of a layer of this size to whether it has the address. It takes no store: a store's own
// `ask` calls it.
pub fn within(layer: Layer, size: u32, address: u32) -> Result<(), Fault>
    ensures { result ≡ below layer size address tt }
{
    if address < size {
        Ok(())
    } else {
        Err(Fault::beyond(layer, address))
    }
}

pub trait Store {
    // The layer that the store's own faults name. A proof does not know its value in an impl with a type parameter, so a layer
    // over any store names its number beside it once more; a ghost twin of it was tried, and does not close where the type has a
    // lifetime.
    const LAYER: Layer;

    ghost meaning: { Self → Meaning };

    // The store once a write of a number at an address is taken.
    ghost wrote: { Self → ℕ → ℕ → Self };

    // What every store keeps; each `impl` proves it.
    ghost sound: { (s : Self) → Sound (meaning s) };

    fn size(&self) -> u32
        ensures { result ≡ (meaning self.now).size };

    fn read(&self, address: u32) -> Result<u32, Fault>
        ensures { result ≡ reads (meaning self.now) address };

    // Would a write be taken?
    fn ask(&self, address: u32) -> Result<(), Fault>
        ensures { result ≡ (meaning self.now).takes address };

    // Puts the low 24 bits of `value` into the cell, or changes nothing.
    fn write(&mut self, address: u32, value: u32) -> Result<(), Fault>
        ensures answer { result ≡ (meaning self.old).takes address }
        ensures effect { meaning self.new ≡ after result (meaning self.old) address value }
        ensures whole { self.new ≡ settled result (wrote self.old address value) self.old };
}
