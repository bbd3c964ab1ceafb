ghost use Rattle.std.specs.Prelude.{◌≡◌, ◌+◌, ◌-◌, min};
ghost use Rattle.layers.specs.declared.pair.Half.TheVariants.{First, Second};
ghost use Rattle.layers.specs.Pair.{paired, paired_sound, split, written};
ghost use Rattle.layers.specs.Writing.{pair_writes};

use answers::{Fault, Layer};
use store::{Faithful, Store, WORDS, within};

// One store's addresses and cells before another's.
#[derive(Drop)]
pub struct Pair<F, S> {
    first: F,
    second: S,
}

// The store of a pair that has an address, and its own address there.
enum Half {
    First(u32),
    Second(u32),
}

// The prover knows a constant only where no type parameter is, so the layer's number stands here.
impl Pair<(), ()> {
    const NUMBER: Layer = Layer::Pair;
}

impl<F: Store, S: Store> Pair<F, S> {
    pub fn new(first: F, second: S) -> Pair<F, S>
        ensures meaning { paired (F.Store.meaning result.first) (S.Store.meaning result.second) ≡ paired (F.Store.meaning first) (S.Store.meaning second) }
        ensures parts { (result.first ≡ first) × (result.second ≡ second) }
    {
        Pair { first, second }
    }

    // Which store has the address, and by which of its own addresses.
    fn locate(&self, address: u32) -> Result<Half, Fault>
        ensures { result ≡ split (F.Store.meaning self.now.first).size (min ((F.Store.meaning self.now.first).size + (S.Store.meaning self.now.second).size) 262144) address (Ok (First address)) (Ok (Second (address - (F.Store.meaning self.now.first).size))) }
    {
        let first = self.first.size();
        if address < first {
            return Ok(Half::First(address));
        }
        within(Pair::<(), ()>::NUMBER, self.size(), address)?;
        Ok(Half::Second(address - first))
    }
}

impl<F: Store, S: Store> Store for Pair<F, S> {
    const LAYER: Layer = Pair::<(), ()>::NUMBER;

    ghost meaning = { λ s. paired (F.Store.meaning s.first) (S.Store.meaning s.second) };

    ghost wrote = { λ s a v. written (F.Store.meaning s.first) F.Store.wrote S.Store.wrote s a v };

    ghost sound = { λ s. paired_sound (F.Store.meaning s.first) (S.Store.meaning s.second) (F.Store.sound s.first) (S.Store.sound s.second) };

    fn size(&self) -> u32 {
        (self.first.size() + self.second.size()).min(WORDS)
    }

    fn read(&self, address: u32) -> Result<u32, Fault> {
        match self.locate(address)? {
            Half::First(at) => self.first.read(at),
            Half::Second(at) => self.second.read(at),
        }
    }

    fn ask(&self, address: u32) -> Result<(), Fault> {
        match self.locate(address)? {
            Half::First(at) => self.first.ask(at),
            Half::Second(at) => self.second.ask(at),
        }
    }

    fn write(&mut self, address: u32, value: u32) -> Result<(), Fault> {
        match (*self).locate(address)? {
            Half::First(at) => self.first.write(at, value),
            Half::Second(at) => self.second.write(at, value),
        }
    }
}

impl<F: Faithful, S: Faithful> Faithful for Pair<F, S> {
    ghost writes = { λ s a v h. pair_writes F.Store.meaning S.Store.meaning F.Store.wrote S.Store.wrote s a v (F.Store.sound s.first) (F.Faithful.writes s.first a v) (λ b. S.Faithful.writes s.second b v) h };
}
