ghost use Rattle.std.specs.Prelude.{◌≡◌};
ghost use Rattle.answers.specs.declared.cause.Cause.TheVariants.{Beyond, Protected, Unmapped};

use crate::cause::Cause;
use crate::layer::Layer;

// Why a store gave no answer, which store, and the address that it was given.
#[derive(Clone, Copy, PartialEq, Eq, Debug)]
pub struct Fault {
    pub cause: Cause,
    pub layer: Layer,
    pub address: u32,
}

// One for each cause, and not one over `Cause`: a call reads as the fault that it makes.
impl Fault {
    pub fn unmapped(layer: Layer, address: u32) -> Fault
        ensures { result ≡ record { cause = Unmapped; layer = layer; address = address } }
    {
        Fault {
            cause: Cause::Unmapped,
            layer,
            address,
        }
    }

    pub fn protected(layer: Layer, address: u32) -> Fault
        ensures { result ≡ record { cause = Protected; layer = layer; address = address } }
    {
        Fault {
            cause: Cause::Protected,
            layer,
            address,
        }
    }

    pub fn beyond(layer: Layer, address: u32) -> Fault
        ensures { result ≡ record { cause = Beyond; layer = layer; address = address } }
    {
        Fault {
            cause: Cause::Beyond,
            layer,
            address,
        }
    }
}
