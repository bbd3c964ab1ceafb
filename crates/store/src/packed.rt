ghost use Rattle.std.specs.Prelude.{◌≡◌, ◌/◌, min, length};
ghost use Rattle.answers.specs.declared.layer.Layer.TheVariants.{Packed as PackedLayer};
ghost use Rattle.store.specs.Core.{Core};
ghost use Rattle.store.specs.Lent.{behind};
ghost use Rattle.store.specs.Bytes.{packed_writes};
ghost use Rattle.store.specs.Packed.{packed, packed_sound, spread, word_at};

use crate::faithful::Faithful;
use crate::store::{Store, WORDS, within};
use answers::{Fault, Layer};

// The caller's bytes, three to a word, the highest first.
#[derive(Drop)]
pub struct Packed<'a> {
    bytes: &'a mut [u8],
}

impl<'a> Packed<'a> {
    pub fn new(bytes: &'a mut [u8]) -> Packed<'a>
        ensures meaning { Core PackedLayer (min (length bytes.old / 3) 262144) (word_at bytes.old) (packed result.bytes.now) }
        ensures bytes { result.bytes.now ≡ bytes.old }
        ensures lender { result.bytes.ghost_name ≡ bytes.entry.ghost_name }
    {
        Packed { bytes }
    }
}

impl Store for Packed<'_> {
    const LAYER: Layer = Layer::Packed;

    ghost meaning = { λ s. packed s.bytes.now };

    ghost wrote = { λ s a v. record { bytes = behind s.bytes (spread s.bytes.now a v) } };

    ghost sound = { λ s. packed_sound s.bytes.now };

    fn size(&self) -> u32 {
        (self.bytes.len() / 3).min(WORDS as usize) as u32
    }

    fn read(&self, address: u32) -> Result<u32, Fault> {
        self.ask(address)?;
        let i = 3 * address as usize;
        let (high, middle, low) = (self.bytes[i], self.bytes[i + 1], self.bytes[i + 2]);
        Ok(u32::from_be_bytes([0, high, middle, low]))
    }

    fn ask(&self, address: u32) -> Result<(), Fault> {
        within(Self::LAYER, self.size(), address)
    }

    fn write(&mut self, address: u32, value: u32) -> Result<(), Fault> {
        (*self).ask(address)?;
        let i = 3 * address as usize;
        let [_, high, middle, low] = value.to_be_bytes();
        self.bytes[i] = high;
        self.bytes[i + 1] = middle;
        self.bytes[i + 2] = low;
        Ok(())
    }
}

impl Faithful for Packed<'_> {
    ghost writes = { λ s a v h. packed_writes s.bytes.now a v h };
}
