ghost use Rattle.std.specs.Prelude.{◌≡◌, None, replicate};
ghost use Rattle.machine.specs.Calls.{after_load, after_run, after_setting, answered, load_refusal, report_refusal, store_after, turn_answer, turn_refusal, turn_run, unless_refused};
ghost use Rattle.machine.specs.Models.{Model, blank, model, record_of};
ghost use Rattle.pages.specs.Settings.{accepted};

use crate::load::Load;
use crate::records::Records;
use answers::Refusal;
use pages::{Group, Relocation, Setting};
use registers::{Keys, Record, Registers};
use store::Faithful;
use turn::Turned;

// The most instructions of a turn.
const LENGTH: u32 = 10_000;

// Eight groups over a core, each behind its own page descriptors.
// Its clauses take a model by `model`, and not by `impl Model`: the meaning of a core holds functions, and no value of a model may.
#[derive(Drop)]
pub struct Machine<C> {
    records: Records,
    store: Relocation<C>,
}

impl<C: Faithful> Machine<C> {
    pub fn new(core: C) -> Machine<C>
        ensures model { model C.Store.meaning result ≡ record { records = replicate 8 blank; pages = replicate 128 None; core = C.Store.meaning core } }
        ensures core { result.store.below ≡ core }
    {
        Machine {
            records: Records::new(),
            store: Relocation::new(core),
        }
    }

    // Up to `length` instructions of a group, or as far as a trap, which stops it.
    pub fn turn(&mut self, group: u32, length: u32, keys: u32) -> Result<Turned, Refusal>
        ensures answer { result ≡ answered (turn_refusal (model C.Store.meaning self.old) group length keys) (turn_answer (turn_run (model C.Store.meaning self.old) group length keys)) }
        ensures store { self.new.store ≡ unless_refused (turn_refusal (model C.Store.meaning self.old) group length keys) (store_after C.Store.meaning C.Store.wrote group (turn_run (model C.Store.meaning self.old) group length keys) self.old.store) self.old.store }
        ensures model { model C.Store.meaning self.new ≡ unless_refused (turn_refusal (model C.Store.meaning self.old) group length keys) (after_run (model C.Store.meaning self.old) group (turn_run (model C.Store.meaning self.old) group length keys)) (model C.Store.meaning self.old) }
    {
        let group = Group::try_from(group)?;
        if length < 1 || length > LENGTH {
            return Err(Refusal::Length);
        }
        let keys = Keys::try_from(keys)?;
        let mut record = self.records.get(group);
        let Some(turned) = turn::turn(&mut record, &mut self.store, group, keys, length) else {
            return Err(Refusal::Stopped);
        };
        self.records.put(group, record);
        Ok(turned)
    }

    // Sets all registers of a group, clears its latch and makes it run.
    pub fn load(&mut self, group: u32, load: Load) -> Result<(), Refusal>
        ensures answer { result ≡ answered (load_refusal group load) tt }
        ensures model { model C.Store.meaning self.new ≡ unless_refused (load_refusal group load) (after_load (model C.Store.meaning self.old) group load) (model C.Store.meaning self.old) }
        ensures store { self.new.store ≡ self.old.store }
    {
        let group = Group::try_from(group)?;
        let registers = Registers::try_from(load)?;
        self.records.load(group, registers);
        Ok(())
    }

    pub fn set_page(&mut self, group: u32, entry: u32, setting: Setting) -> Result<(), Refusal>
        ensures answer { result ≡ accepted group entry setting }
        ensures model { model C.Store.meaning self.new ≡ after_setting (model C.Store.meaning self.old) group entry setting }
        ensures core { self.new.store.below ≡ self.old.store.below }
    {
        self.store.set(group, entry, setting)
    }

    // A group's record; nothing changes.
    pub fn report(&mut self, group: u32) -> Result<Record, Refusal>
        ensures answer { result ≡ answered (report_refusal group) (record_of (model C.Store.meaning self.old) group) }
        ensures same { self.new ≡ self.old }
    {
        Ok(self.records.get(Group::try_from(group)?))
    }

    // The core under its page file, to look at.
    pub fn store(&self) -> &Relocation<C>
        ensures { result.now ≡ self.now.store }
    {
        &self.store
    }

    pub fn into_core(self) -> C
        ensures { result ≡ self.store.below }
    {
        let Machine { records: _, store } = self;
        store.into_core()
    }
}
