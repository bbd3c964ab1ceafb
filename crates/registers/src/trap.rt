ghost use Rattle.std.specs.Prelude.{◌≡◌};
ghost use Rattle.registers.specs.Traps.{trap_address, trap_code, trap_layer};
ghost use Rattle.registers.specs.declared.trap.Trap.TheVariants.{Store};

use answers::{Code, Fault};
use ones::Address;

// Why an instruction was not carried out.
#[derive(Clone, Copy, PartialEq, Eq, Debug)]
pub enum Trap {
    // the executive's instruction at this P
    Executive(Address),
    // no instruction of this machine at this P
    Illegal(Address),
    // the instruction at this P needs one indirect word too many
    Indirect(Address),
    Store(Fault),
}

impl Trap {
    pub fn code(self) -> Code
        ensures { result ≡ trap_code self }
    {
        match self {
            Trap::Executive(_) => Code::Executive,
            Trap::Illegal(_) => Code::Illegal,
            Trap::Indirect(_) => Code::Indirect,
            Trap::Store(fault) => Code::Store(fault.cause),
        }
    }

    // The layer that gave the fault, and 0 where no store did.
    pub fn layer(self) -> u8
        ensures { result ≡ trap_layer self }
    {
        match self {
            Trap::Store(fault) => fault.layer.number(),
            _ => 0,
        }
    }

    // The address of the fault, and P where no store gave one.
    pub fn address(self) -> u32
        ensures { result ≡ trap_address self }
    {
        match self {
            Trap::Executive(p) | Trap::Illegal(p) | Trap::Indirect(p) => p.bits() as u32,
            Trap::Store(fault) => fault.address,
        }
    }
}

impl From<Fault> for Trap {
    ghost from_gives = { λ f r. r ≡ Store f };

    fn from(fault: Fault) -> Trap {
        Trap::Store(fault)
    }
}
