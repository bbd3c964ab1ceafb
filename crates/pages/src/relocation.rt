ghost use Rattle.std.specs.Prelude.{◌≡◌, None, replicate};
ghost use Rattle.pages.specs.Pages.{located};
ghost use Rattle.pages.specs.Reach.{Exact};
ghost use Rattle.pages.specs.Relocation.{relocated, relocated_sound, relocated_writes, written_below};
ghost use Rattle.pages.specs.Settings.{accepted, entered};

use crate::file::PageFile;
use crate::setting::Setting;
use answers::{Fault, Layer, Refusal};
use store::{Faithful, Store};

// The store below, by way of the page file.
// Clauses name its two parts, and no view of both: a setting changes the one alone, a write the other.
#[derive(Drop)]
pub struct Relocation<C> {
    pub(crate) below: C,
    pub(crate) pages: PageFile,
}

impl<C: Store> Relocation<C> {
    // All descriptors are absent at first.
    pub fn new(below: C) -> Relocation<C>
        ensures meaning { relocated result.pages.entries (C.Store.meaning result.below) ≡ relocated (replicate 128 None) (C.Store.meaning below) }
        ensures parts { (result.below ≡ below) × (result.pages.entries ≡ replicate 128 None) }
    {
        Relocation {
            below,
            pages: PageFile::new(),
        }
    }

    // Sets a page entry of a group, or refuses and changes nothing.
    pub fn set(&mut self, group: u32, entry: u32, setting: Setting) -> Result<(), Refusal>
        ensures answer { result ≡ accepted group entry setting }
        ensures pages { self.new.pages.entries ≡ entered self.old.pages.entries group entry setting }
        ensures below { self.new.below ≡ self.old.below }
        ensures quarters { Exact self.new.pages.entries }
    {
        self.pages.set(group, entry, setting)
    }

    pub fn into_core(self) -> C
        ensures { result ≡ self.below }
    {
        let Relocation { below, pages: _ } = self;
        below
    }
}

impl<C: Store> Store for Relocation<C> {
    const LAYER: Layer = PageFile::LAYER;

    ghost meaning = { λ s. relocated s.pages.entries (C.Store.meaning s.below) };

    ghost wrote = { λ s a v. record { below = written_below C.Store.wrote s.below (located s.pages.entries a) v; pages = s.pages } };

    ghost sound = { λ s. relocated_sound s.pages.entries (C.Store.meaning s.below) (C.Store.sound s.below) };

    fn size(&self) -> u32 {
        store::WORDS
    }

    fn read(&self, address: u32) -> Result<u32, Fault> {
        let place = self.pages.locate(address)?;
        self.below.read(place.address)
    }

    fn ask(&self, address: u32) -> Result<(), Fault> {
        let place = self.pages.locate_writable(address)?;
        self.below.ask(place.address)
    }

    fn write(&mut self, address: u32, value: u32) -> Result<(), Fault> {
        let place = self.pages.locate_writable(address)?;
        self.below.write(place.address, value)
    }
}

impl<C: Faithful> Faithful for Relocation<C> {
    ghost writes = { λ s a v h. relocated_writes s.pages.entries C.Store.meaning C.Store.wrote s.below a v (λ b. C.Faithful.writes s.below b v) h };
}
