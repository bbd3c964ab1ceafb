ghost use Rattle.std.specs.Prelude.{◌≡◌, ◌%◌, ◌^◌, min, length, slice_index};
ghost use Rattle.answers.specs.declared.layer.Layer.TheVariants.{Plain as PlainLayer};
ghost use Rattle.store.specs.Core.{Core};
ghost use Rattle.store.specs.Lent.{behind};
ghost use Rattle.store.specs.Writing.{plain_writes};
ghost use Rattle.store.specs.Plain.{plain, plain_sound, rewritten};

use crate::faithful::Faithful;
use crate::store::{Store, WORDS, within};
use answers::{Fault, Layer};

// The caller's 32-bit words: cell k is the low 24 bits of word k.
#[derive(Drop)]
pub struct Plain<'a> {
    words: &'a mut [u32],
}

impl<'a> Plain<'a> {
    pub fn new(words: &'a mut [u32]) -> Plain<'a>
        ensures meaning { Core PlainLayer (min (length words.old) 262144) (λ k. slice_index words.old k % 2 ^ 24) (plain result.words.now) }
        ensures words { result.words.now ≡ words.old }
        ensures lender { result.words.ghost_name ≡ words.entry.ghost_name }
    {
        Plain { words }
    }
}

impl Store for Plain<'_> {
    const LAYER: Layer = Layer::Plain;

    ghost meaning = { λ s. plain s.words.now };

    ghost wrote = { λ s a v. record { words = behind s.words (rewritten s.words.now a v) } };

    ghost sound = { λ s. plain_sound s.words.now };

    fn size(&self) -> u32 {
        self.words.len().min(WORDS as usize) as u32
    }

    fn read(&self, address: u32) -> Result<u32, Fault> {
        self.ask(address)?;
        Ok(self.words[address as usize] % 0x100_0000)
    }

    fn ask(&self, address: u32) -> Result<(), Fault> {
        within(Self::LAYER, self.size(), address)
    }

    fn write(&mut self, address: u32, value: u32) -> Result<(), Fault> {
        (*self).ask(address)?;
        self.words[address as usize] = value % 0x100_0000;
        Ok(())
    }
}

impl Faithful for Plain<'_> {
    ghost writes = { λ s a v h. plain_writes s.words.now a v h };
}
