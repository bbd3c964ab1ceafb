ghost use Rattle.std.specs.Prelude.{◌≡◌, replicate, slice_set};
ghost use Rattle.machine.specs.Loads.{running};
ghost use Rattle.machine.specs.Models.{blank, entry_of};

use crate::load::fill;
use pages::Group;
use registers::{Record, Registers, State};

// A record for each of the eight groups.
#[derive(Clone, Copy, PartialEq, Eq, Debug)]
pub struct Records {
    all: [Record; 8],
}

impl Records {
    // All groups run, with zeros in their registers and the latch clear.
    pub(crate) fn new() -> Records
        ensures { result.all ≡ replicate 8 blank }
    {
        let blank = Record {
            registers: Registers::default(),
            state: State::Running,
        };
        Records { all: [blank; 8] }
    }

    pub(crate) fn get(&self, group: Group) -> Record
        ensures { result ≡ entry_of self.now.all group.number }
    {
        self.all[usize::from(group.number())]
    }

    pub(crate) fn put(&mut self, group: Group, record: Record)
        ensures { self.new.all ≡ slice_set self.old.all group.number «record» }
    {
        self.all[usize::from(group.number())] = record;
    }

    // Lends the group's record to be filled; the others are not touched.
    pub(crate) fn load(&mut self, group: Group, registers: Registers)
        ensures { self.new.all ≡ slice_set self.old.all group.number (running registers) }
    {
        fill(&mut self.all[usize::from(group.number())], registers);
    }
}
