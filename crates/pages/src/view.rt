ghost use Rattle.std.specs.Prelude.{◌≡◌};
ghost use Rattle.pages.specs.Pages.{located};
ghost use Rattle.pages.specs.Reach.{Reach};
ghost use Rattle.pages.specs.View.{original};

use crate::file::Place;
use crate::group::Group;
use crate::relocation::Relocation;
use answers::Fault;
use ones::Address;
use store::Store;

// A group's own addresses.
impl<C: Store> Relocation<C> {
    // Where a group's address lies in the core.
    pub fn place_for(&self, group: Group, address: Address) -> Result<Place, Fault>
        ensures place { result ≡ located self.now.pages.entries (original group.number address.bits) }
        ensures reach { Reach self.now.pages.entries (C.Store.meaning self.now.below) group.number }
    {
        self.pages.locate(original(group, address))
    }
}

// Where a group's addresses begin in a store of all groups' addresses.
pub fn original(group: Group, address: Address) -> u32
    ensures { result ≡ original group.number address.bits }
{
    u32::from(group.number()) * 32768 + address.bits() as u32
}
