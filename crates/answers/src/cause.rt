ghost use Rattle.std.specs.Prelude.{◌≡◌, Some};
ghost use Rattle.answers.specs.Names.{cause_name};
ghost use Rattle.answers.specs.Numbers.{cause_number};

use std::fmt;

// Why a store gives a fault, by number.
#[derive(Clone, Copy, PartialEq, Eq, Debug)]
pub enum Cause {
    // no descriptor, or a quarter that is not below its length
    Unmapped = 3,
    // a write where none is taken
    Protected = 4,
    // an address at or above the size
    Beyond = 5,
}

impl Cause {
    pub fn number(self) -> u8
        ensures { result ≡ cause_number self }
    {
        self as u8
    }
}

impl fmt::Display for Cause {
    ghost output = { λ x. Some (cause_name x) };

    fn fmt<W: fmt::Write>(&self, f: &mut fmt::Formatter<W>) -> fmt::Result {
        f.write_str(match self {
            Cause::Unmapped => "no page there",
            Cause::Protected => "write not taken",
            Cause::Beyond => "no such address",
        })
    }
}
