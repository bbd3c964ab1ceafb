// Calls to a pile under its page file.
use crate::failure::Failure;
use crate::printout::Printout;
use crate::run::Obey;
use answers::Fault;
use deck::Command;
use image::Image;
use layers::{Protection, Ranges};
use ones::Address;
use pages::{Group, Page, Place, Relocation};
use printing::call::Call;
use printing::lead::Spot;
use session::{Misplaced, Pile};
use store::Store;

#[derive(Drop)]
pub(crate) struct Calls<'a, C> {
    printout: Printout<'a>,
    store: Relocation<Protection<C>>,
}

impl<'a, C: Store> Calls<'a, C> {
    pub(crate) fn new(printout: Printout<'a>, core: C, ranges: Ranges) -> Calls<'a, C> {
        Calls {
            printout,
            store: Relocation::new(Protection::new(core, ranges)),
        }
    }

    fn list(&self, address: u32, count: u32) -> Result<(), Failure> {
        let store = &self.store;
        self.printout
            .list(address, count, |at| Some(store.read_core(at)))
    }

    // Where an address of a group leads.
    fn locate(&self, group: u32, address: u32) -> Result<(), Failure> {
        let address = Address::new(u64::from(address)).ok_or(Misplaced::Address)?;
        let group = match Group::try_from(group) {
            Ok(group) => group,
            Err(refusal) => return Ok(self.printout.refused(Call::Where, refusal)?),
        };
        let place = self.store.place_for(group, address);
        let reading = view::read(&self.store, group, address).map(|_| ());
        let writing = view::ask(&self.store, group, address);
        Ok(
            self.printout
                .leads(spot(place, reading), spot(place, writing))?,
        )
    }
}

impl<C: Store> Obey for Calls<'_, C> {
    fn printout(&self) -> &Printout<'_> {
        &self.printout
    }

    fn obey(&mut self, command: Command) -> Result<Option<Pile>, Failure> {
        match command {
            Command::Record(style) => self.printout.style = style,
            Command::Page {
                group,
                entry,
                page,
                start,
                length,
                write,
            } => {
                let page = Page {
                    page,
                    start,
                    length,
                    write,
                };
                let answer = self.store.set(group, entry, Some(page));
                self.printout.done(Call::Page, answer)?;
            }
            Command::Absent { group, entry } => {
                let answer = self.store.set(group, entry, None);
                self.printout.done(Call::Absent, answer)?;
            }
            Command::Where { group, address } => self.locate(group, address)?,
            Command::Read(address) => {
                self.printout.read(address, self.store.read_core(address))?;
            }
            Command::List { address, count } => self.list(address, count)?,
            Command::Image(bytes) => self.printout.image(Image::read(&bytes))?,
            Command::Load { .. }
            | Command::Turn { .. }
            | Command::Report(_)
            | Command::Write { .. } => return Err(Failure::from(Misplaced::NotYet)),
            _ => return Err(Failure::from(Misplaced::Made)),
        }
        Ok(None)
    }
}

// The place, unless the core gives a fault there. In the piles of a deck each core address is its own cell.
fn spot(place: Result<Place, Fault>, answer: Result<(), Fault>) -> Result<Spot, Fault> {
    let Place { address, .. } = place?;
    answer?;
    Ok(Spot {
        address,
        cell: address,
    })
}
