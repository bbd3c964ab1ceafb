// What an instruction left otherwise than the table says.
use crate::state::State;
use crate::trial::End;
use registers::Registers;
use std::alloc::{AllocError, Global};
use std::fmt;

#[derive(Clone, Copy)]
pub(crate) struct Difference {
    part: Part,
    expected: u64,
    found: u64,
}

#[derive(Clone, Copy)]
enum Part {
    Named(&'static str),
    Word(usize),
}

impl fmt::Display for Part {
    fn fmt<W: fmt::Write>(&self, f: &mut fmt::Formatter<W>) -> fmt::Result {
        match *self {
            Part::Named(name) => f.write_str(name),
            Part::Word(address) => write!(f, "word {address:05o}"),
        }
    }
}

impl fmt::Display for Difference {
    fn fmt<W: fmt::Write>(&self, f: &mut fmt::Formatter<W>) -> fmt::Result {
        let Difference {
            part,
            expected,
            found,
        } = *self;
        write!(f, "{part} {expected:05o} expected, {found:05o} found")
    }
}

// Differences as they are found.
#[derive(Drop)]
pub(crate) struct Differences {
    pub(crate) all: Vec<Difference>,
}

impl Differences {
    pub(crate) fn new(heap: Global) -> Differences {
        Differences {
            all: Vec::new(heap),
        }
    }

    pub(crate) fn compare_ends(&mut self, expected: End, found: End) -> Result<(), AllocError> {
        for (name, expected, found) in [
            ("trap", expected.code, found.code),
            ("layer", expected.layer, found.layer),
            ("address", expected.address, found.address),
        ] {
            self.compare(Part::Named(name), u64::from(expected), u64::from(found))?;
        }
        Ok(())
    }

    pub(crate) fn compare_registers(
        &mut self,
        expected: &Registers,
        found: &Registers,
    ) -> Result<(), AllocError> {
        for (name, expected, found) in [
            ("a", expected.a.bits(), found.a.bits()),
            ("q", expected.q.bits(), found.q.bits()),
            ("b1", expected.b1.bits(), found.b1.bits()),
            ("b2", expected.b2.bits(), found.b2.bits()),
            ("b3", expected.b3.bits(), found.b3.bits()),
            ("p", expected.p.bits(), found.p.bits()),
            ("latch", u64::from(expected.latch), u64::from(found.latch)),
        ] {
            self.compare(Part::Named(name), expected, found)?;
        }
        Ok(())
    }

    pub(crate) fn compare_cores(
        &mut self,
        expected: &State,
        found: &State,
    ) -> Result<(), AllocError> {
        // cores of a case that passes are equal, and this is quicker to see than word by word
        if expected.core == found.core {
            return Ok(());
        }
        let words = expected.core.iter().zip(found.core.iter());
        for (address, (expected, found)) in words.enumerate() {
            self.compare(Part::Word(address), u64::from(*expected), u64::from(*found))?;
        }
        Ok(())
    }

    fn compare(&mut self, part: Part, expected: u64, found: u64) -> Result<(), AllocError> {
        if expected != found {
            self.all.push(Difference {
                part,
                expected,
                found,
            })?;
        }
        Ok(())
    }
}
