ghost use Rattle.std.specs.Prelude.{◌≡◌};
ghost use Rattle.turn.specs.Answers.{turned_address, turned_code, turned_layer};

use answers::Code;
use registers::Trap;

// What a turn answers: the instructions carried out, and the trap that ended it before its length.
#[derive(Clone, Copy, PartialEq, Eq, Debug)]
pub struct Turned {
    pub count: u32,
    pub trap: Option<Trap>,
}

impl Turned {
    pub fn code(self) -> Code
        ensures { result ≡ turned_code self.trap }
    {
        match self.trap {
            Some(trap) => trap.code(),
            None => Code::Length,
        }
    }

    pub fn layer(self) -> u8
        ensures { result ≡ turned_layer self.trap }
    {
        match self.trap {
            Some(trap) => trap.layer(),
            None => 0,
        }
    }

    pub fn address(self) -> u32
        ensures { result ≡ turned_address self.trap }
    {
        match self.trap {
            Some(trap) => trap.address(),
            None => 0,
        }
    }
}
