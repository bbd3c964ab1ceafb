ghost use Rattle.std.specs.Prelude.{◌≡◌, Ok};
ghost use Rattle.answers.specs.declared.layer.Layer.TheVariants.{Protection as ProtectionLayer};
ghost use Rattle.layers.specs.Protection.{barred, guarded, protected, protected_sound};
ghost use Rattle.layers.specs.Ranges.{covered};
ghost use Rattle.layers.specs.Writing.{guarded_taken, protected_writes};

use crate::range::Ranges;
use answers::{Fault, Layer};
use store::{Faithful, Store};

// The store below, but that the addresses in the ranges take no write.
#[derive(Drop)]
pub struct Protection<C> {
    below: C,
    ranges: Ranges,
}

// The prover knows a constant only where no type parameter is, so the layer's number stands here.
impl Protection<()> {
    const NUMBER: Layer = Layer::Protection;
}

impl<C: Store> Protection<C> {
    pub fn new(below: C, ranges: Ranges) -> Protection<C>
        ensures meaning { protected result.ranges (C.Store.meaning result.below) ≡ protected ranges (C.Store.meaning below) }
        ensures parts { (result.below ≡ below) × (result.ranges ≡ ranges) }
    {
        Protection { below, ranges }
    }

    // The protection's own answer to a write.
    fn unprotected(&self, address: u32) -> Result<(), Fault>
        ensures { result ≡ guarded (covered self.now.ranges address) (barred ProtectionLayer address) (Ok tt) }
    {
        if self.ranges.cover(address) {
            Err(Fault::protected(Protection::<()>::NUMBER, address))
        } else {
            Ok(())
        }
    }
}

impl<C: Store> Store for Protection<C> {
    const LAYER: Layer = Protection::<()>::NUMBER;

    ghost meaning = { λ s. protected s.ranges (C.Store.meaning s.below) };

    ghost wrote = { λ s a v. record { below = C.Store.wrote s.below a v; ranges = s.ranges } };

    ghost sound = { λ s. protected_sound s.ranges (C.Store.meaning s.below) (C.Store.sound s.below) };

    fn size(&self) -> u32 {
        self.below.size()
    }

    fn read(&self, address: u32) -> Result<u32, Fault> {
        self.below.read(address)
    }

    fn ask(&self, address: u32) -> Result<(), Fault> {
        self.below.ask(address)?;
        self.unprotected(address)
    }

    fn write(&mut self, address: u32, value: u32) -> Result<(), Fault> {
        (*self).ask(address)?;
        self.below.write(address, value)
    }
}

impl<C: Faithful> Faithful for Protection<C> {
    ghost writes = { λ s a v h. protected_writes s.ranges (C.Store.meaning s.below) (C.Store.meaning (C.Store.wrote s.below a v)) a v (C.Faithful.writes s.below a v (guarded_taken _ _ _ h)) };
}
