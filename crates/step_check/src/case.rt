// A case: what stands before its instruction, and what is to stand after it.
use crate::difference::Differences;
use crate::item::Item;
use crate::problem::Problem;
use crate::state::State;
use crate::trial::{End, Setup};
use std::alloc::{AllocError, Global};

#[derive(Drop)]
pub(crate) struct Case {
    pub(crate) name: String,
    pub(crate) setup: Setup,
    pub(crate) before: State,
    pub(crate) after: Option<After>,
}

#[derive(Drop)]
pub(crate) struct After {
    pub(crate) state: State,
    // None as long as neither p nor a trap has been given
    pub(crate) end: Option<End>,
}

impl Case {
    pub(crate) fn new(heap: Global, name: &str) -> Result<Case, AllocError> {
        Ok(Case {
            name: String::from_str(heap, name)?,
            setup: Setup::new(heap)?,
            before: State::new(heap)?,
            after: None,
        })
    }

    // Takes a line of the case, which is neither empty nor the one with its name.
    pub(crate) fn read_line(&mut self, heap: Global, line: &str) -> Result<(), Problem> {
        match line.strip_prefix("after ") {
            Some(items) => {
                self.begin_after()?;
                self.read_items(heap, items)
            }
            None => self.read_items(heap, line),
        }
    }

    fn begin_after(&mut self) -> Result<(), Problem> {
        if self.after.is_some() {
            return Err(Problem::SecondAfter);
        }
        self.after = Some(After {
            state: self.before.clone()?,
            end: None,
        });
        Ok(())
    }

    fn read_items(&mut self, heap: Global, items: &str) -> Result<(), Problem> {
        for text in items.split(';') {
            let item = Item::read(heap, text)?;
            self.put_item(item.name, item.numbers.as_slice())?;
        }
        Ok(())
    }

    fn put_item(&mut self, name: &str, numbers: &[u32]) -> Result<(), Problem> {
        match &mut self.after {
            Some(after) => after.put(name, numbers),
            None => self.put(name, numbers),
        }
    }

    // Carries out the instruction, which leaves its state in the place of the one before.
    pub(crate) fn judge(&mut self, heap: Global) -> Result<Differences, Problem> {
        let Some(after) = &self.after else {
            return Err(Problem::NoAfter);
        };
        let Some(end) = after.end else {
            return Err(Problem::NoAfter);
        };
        let found = self.setup.carry_out(&mut self.before)?;
        let mut differences = Differences::new(heap);
        differences.compare_ends(end, found)?;
        differences.compare_registers(&after.state.registers, &self.before.registers)?;
        differences.compare_cores(&after.state, &self.before)?;
        Ok(differences)
    }

    fn put(&mut self, name: &str, numbers: &[u32]) -> Result<(), Problem> {
        match *numbers {
            [n] => self.put_one(name, n),
            [m, n] => self.put_two(name, m, n),
            _ => self.setup.put_page(name, numbers),
        }
    }

    fn put_one(&mut self, name: &str, n: u32) -> Result<(), Problem> {
        match name {
            "group" => self.setup.choose_group(n),
            "keys" => self.setup.choose_keys(n),
            _ => self.before.load(name, n),
        }
    }

    fn put_two(&mut self, name: &str, m: u32, n: u32) -> Result<(), Problem> {
        match name {
            "at" => self.before.place(m, n),
            "word" => self.before.write(m, n),
            "chain" => self.before.chain(m, n),
            "absent" => self.setup.set_page(m, n, None),
            _ => Err(Problem::Item),
        }
    }
}

impl After {
    fn put(&mut self, name: &str, numbers: &[u32]) -> Result<(), Problem> {
        match *numbers {
            [n] => self.load(name, n),
            [address, word] if name == "word" => self.state.write(address, word),
            [code, layer, address] if name == "trap" => {
                self.end = Some(End {
                    code,
                    layer,
                    address,
                });
                Ok(())
            }
            _ => Err(Problem::Item),
        }
    }

    fn load(&mut self, register: &str, n: u32) -> Result<(), Problem> {
        if register == "p" {
            self.end = Some(End::DONE);
        }
        self.state.load(register, n)
    }
}
