ghost use Rattle.store.specs.Lent.{behind};

use crate::faithful::Faithful;
use crate::store::Store;
use answers::{Fault, Layer};

// A store that is lent is a store.
impl<C: Store> Store for &mut C {
    const LAYER: Layer = C::LAYER;

    ghost meaning = { λ s. C.Store.meaning s.now };

    ghost wrote = { λ s a v. behind s (C.Store.wrote s.now a v) };

    ghost sound = { λ s. C.Store.sound s.now };

    fn size(&self) -> u32 {
        (**self).size()
    }

    fn read(&self, address: u32) -> Result<u32, Fault> {
        (**self).read(address)
    }

    fn ask(&self, address: u32) -> Result<(), Fault> {
        (**self).ask(address)
    }

    fn write(&mut self, address: u32, value: u32) -> Result<(), Fault> {
        (**self).write(address, value)
    }
}

impl<C: Faithful> Faithful for &mut C {
    ghost writes = { λ s a v h. C.Faithful.writes s.now a v h };
}
