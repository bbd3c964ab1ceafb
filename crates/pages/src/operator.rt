ghost use Rattle.std.specs.Prelude.{◌≡◌};
ghost use Rattle.store.specs.Meaning.{reads};

use crate::relocation::Relocation;
use answers::Fault;
use store::Store;

// The core's own addresses, under the page file.
impl<C: Store> Relocation<C> {
    pub fn read_core(&self, address: u32) -> Result<u32, Fault>
        ensures { result ≡ reads (C.Store.meaning self.now.below) address }
    {
        self.below.read(address)
    }
}
