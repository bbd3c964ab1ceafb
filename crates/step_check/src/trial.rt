// Carries out the instruction of a case.
use crate::item;
use crate::problem::Problem;
use crate::state::State;
use pages::{Group, Page, Relocation, Setting};
use registers::{Keys, Trap};
use std::alloc::{AllocError, Global};
use store::Plain;

// Whose instruction it is, under which keys and page entries.
#[derive(Drop)]
pub(crate) struct Setup {
    group: Group,
    keys: Keys,
    entries: Vec<Entry>,
}

// An entry that is set; a later one of the same group and entry takes its place.
#[derive(Clone, Copy)]
struct Entry {
    group: u32,
    entry: u32,
    setting: Setting,
}

// How an instruction ends: by a trap, or with three zeros, in the numbers of the table's columns.
#[derive(Clone, Copy)]
pub(crate) struct End {
    pub(crate) code: u32,
    pub(crate) layer: u32,
    pub(crate) address: u32,
}

impl End {
    pub(crate) const DONE: End = End {
        code: 0,
        layer: 0,
        address: 0,
    };
}

impl From<Result<(), Trap>> for End {
    fn from(answer: Result<(), Trap>) -> End {
        match answer {
            Ok(()) => End::DONE,
            Err(trap) => End {
                code: u32::from(trap.code().number()),
                layer: u32::from(trap.layer()),
                address: trap.address(),
            },
        }
    }
}

impl Setup {
    // Group 0, with entry k for page k, and no key.
    pub(crate) fn new(heap: Global) -> Result<Setup, AllocError> {
        let entries = (0..16).map(|entry| Entry {
            group: 0,
            entry,
            setting: whole(entry),
        });
        Ok(Setup {
            group: first_group(),
            keys: no_keys(),
            entries: entries.collect(heap)?,
        })
    }

    pub(crate) fn choose_group(&mut self, n: u32) -> Result<(), Problem> {
        self.group = Group::try_from(n).map_err(|_| Problem::Large)?;
        Ok(())
    }

    pub(crate) fn choose_keys(&mut self, n: u32) -> Result<(), Problem> {
        self.keys = Keys::try_from(n).map_err(|_| Problem::Large)?;
        Ok(())
    }

    pub(crate) fn put_page(&mut self, name: &str, numbers: &[u32]) -> Result<(), Problem> {
        match *numbers {
            [group, entry, page, start, length, write] if name == "page" => {
                let setting = Some(Page {
                    page,
                    start,
                    length,
                    write: item::flag(write)?,
                });
                self.set_page(group, entry, setting)
            }
            _ => Err(Problem::Item),
        }
    }

    pub(crate) fn set_page(
        &mut self,
        group: u32,
        entry: u32,
        setting: Setting,
    ) -> Result<(), Problem> {
        self.entries.push(Entry {
            group,
            entry,
            setting,
        })?;
        Ok(())
    }

    // Changes the state as the instruction does.
    pub(crate) fn carry_out(&self, state: &mut State) -> Result<End, Problem> {
        let mut store = Relocation::new(Plain::new(state.core.as_mut_slice()));
        for entry in self.entries.iter() {
            store.set(entry.group, entry.entry, entry.setting)?;
        }
        let answer = step::step(&mut state.registers, &mut store, self.group, self.keys);
        Ok(answer.into())
    }
}

// This and the next are not one generic function: that 0 is a group, and that 0 keys are keys, is known by the `TryFrom` of each.
fn first_group() -> Group {
    match Group::try_from(0) {
        Ok(group) => group,
        Err(_) => unreachable(),
    }
}

fn no_keys() -> Keys {
    match Keys::try_from(0) {
        Ok(keys) => keys,
        Err(_) => unreachable(),
    }
}

fn whole(page: u32) -> Setting {
    Some(Page {
        page,
        start: 0,
        length: 4,
        write: true,
    })
}
