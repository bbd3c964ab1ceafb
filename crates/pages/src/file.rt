ghost use Rattle.std.specs.Prelude.{◌≡◌, None, replicate};
ghost use Rattle.answers.specs.declared.layer.Layer.TheVariants as layers;
ghost use Rattle.pages.specs.Pages.{located};
ghost use Rattle.pages.specs.Relocation.{writable};
ghost use Rattle.pages.specs.Settings.{accepted, entered};

use crate::descriptor::{Descriptor, Window};
use crate::group::Group;
use crate::setting::Setting;
use answers::{Cause, Fault, Layer, Refusal};
use store::WORDS;

// Sixteen descriptors for each of eight groups.
#[derive(Drop)]
pub struct PageFile {
    pub(crate) entries: [Descriptor; 128],
}

// Where an address lies in the core, and whether its page takes writes.
#[derive(Clone, Copy, PartialEq, Eq, Debug)]
pub struct Place {
    pub address: u32,
    pub write: bool,
}

impl PageFile {
    pub(crate) const LAYER: Layer = Layer::Relocation;

    pub(crate) fn new() -> PageFile
        ensures { result.entries ≡ replicate 128 None }
    {
        PageFile {
            entries: [None; 128],
        }
    }

    // Checks group, entry and descriptor in this order, and only then changes the entry.
    pub(crate) fn set(&mut self, group: u32, entry: u32, setting: Setting) -> Result<(), Refusal>
        ensures answer { result ≡ accepted group entry setting }
        ensures after { self.new.entries ≡ entered self.old.entries group entry setting }
    {
        let group = Group::try_from(group)?;
        if entry > 15 {
            return Err(Refusal::Entry);
        }
        let descriptor = setting.map(Window::try_from).transpose()?;
        self.entries[(16 * u32::from(group.number) + entry) as usize] = descriptor;
        Ok(())
    }

    pub(crate) fn locate(&self, address: u32) -> Result<Place, Fault>
        ensures { result ≡ located self.now.entries address }
    {
        if address >= WORDS {
            return Err(Self::fault(Cause::Beyond, address));
        }
        let quarter = address / 512 % 4;
        let descriptor = self.entries[(address / 2048) as usize];
        match descriptor {
            Some(window) if quarter < u32::from(window.length) => Ok(Place {
                address: u32::from(window.page) * 2048
                    + (u32::from(window.start) + quarter) * 512
                    + address % 512,
                write: window.write,
            }),
            _ => Err(Self::fault(Cause::Unmapped, address)),
        }
    }

    // The same, for a write: the page has to take writes.
    pub(crate) fn locate_writable(&self, address: u32) -> Result<Place, Fault>
        ensures { result ≡ writable (located self.now.entries address) address }
    {
        let place = self.locate(address)?;
        if place.write {
            Ok(place)
        } else {
            Err(Self::fault(Cause::Protected, address))
        }
    }

    fn fault(cause: Cause, address: u32) -> Fault
        ensures { result ≡ record { cause = cause; layer = layers.Relocation; address = address } }
    {
        Fault {
            cause,
            layer: Self::LAYER,
            address,
        }
    }
}
