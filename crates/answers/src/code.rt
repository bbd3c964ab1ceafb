ghost use Rattle.std.specs.Prelude.{◌≡◌, Some};
ghost use Rattle.answers.specs.Names.{code_name};
ghost use Rattle.answers.specs.Numbers.{code_number};

use crate::cause::Cause;
use std::fmt;

// How a turn ended: at its length, or by a trap.
#[derive(Clone, Copy, PartialEq, Eq, Debug)]
pub enum Code {
    Length,
    // an instruction that is the executive's
    Executive,
    // an instruction that the machine has not
    Illegal,
    // a fault of the store
    Store(Cause),
    // more indirect words than an instruction may read
    Indirect,
}

impl Code {
    pub fn number(self) -> u8
        ensures { result ≡ code_number self }
    {
        match self {
            Code::Length => 0,
            Code::Executive => 1,
            Code::Illegal => 2,
            Code::Store(cause) => cause.number(),
            Code::Indirect => 6,
        }
    }
}

impl fmt::Display for Code {
    ghost output = { λ x. Some (code_name x) };

    fn fmt<W: fmt::Write>(&self, f: &mut fmt::Formatter<W>) -> fmt::Result {
        match self {
            Code::Length => f.write_str("length reached"),
            Code::Executive => f.write_str("executive instruction"),
            Code::Illegal => f.write_str("illegal instruction"),
            Code::Store(cause) => write!(f, "{cause}"),
            Code::Indirect => f.write_str("too many indirect words"),
        }
    }
}
