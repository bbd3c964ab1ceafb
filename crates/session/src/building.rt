ghost use Rattle.std.specs.Prelude.{◌≡◌};
ghost use Rattle.session.specs.Built.{added, is_whole, may_add, may_pair, with_image, with_pair};

use crate::memory::{Block, Memory, Pile};
use crate::misplaced::Misplaced;
use std::mem;

impl Pile {
    // One core more, or a refusal of the third.
    pub fn add(&mut self, memory: Memory) -> Result<(), Misplaced>
        ensures answer { result ≡ may_add self.old }
        ensures after { self.new ≡ added self.old memory }
    {
        match mem::replace(self, Pile::Nothing) {
            Pile::Nothing | Pile::Image(_) => *self = Pile::One(memory),
            Pile::One(first) => *self = Pile::Two(first, memory),
            full => {
                *self = full;
                return Err(Misplaced::TwoCores);
            }
        }
        Ok(())
    }

    // The words of an accepted image, kept until a core is built.
    pub fn keep_image(&mut self, words: Vec<u8>)
        ensures { self.new ≡ with_image self.old words.items }
    {
        match self {
            Pile::Nothing | Pile::Image(_) => *self = Pile::Image(Block { units: words }),
            Pile::One(_) | Pile::Two(_, _) | Pile::Pair(_, _) => {}
        }
    }

    // The two cores as one store, the earlier one in front.
    pub fn pair(&mut self) -> Result<(), Misplaced>
        ensures answer { result ≡ may_pair self.old }
        ensures after { self.new ≡ with_pair self.old }
    {
        match mem::replace(self, Pile::Nothing) {
            Pile::Two(front, back) => {
                *self = Pile::Pair(front, back);
                Ok(())
            }
            other => {
                *self = other;
                Err(Misplaced::NotTwo)
            }
        }
    }

    // Is there one store for a machine to be made over?
    pub fn whole(&self) -> Result<(), Misplaced>
        ensures { result ≡ is_whole self.now }
    {
        match self {
            Pile::Nothing | Pile::Image(_) => Err(Misplaced::NoCore),
            Pile::Two(_, _) => Err(Misplaced::NotPaired),
            Pile::One(_) | Pile::Pair(_, _) => Ok(()),
        }
    }
}
