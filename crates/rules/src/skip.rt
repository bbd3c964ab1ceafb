ghost use Rattle.std.specs.Prelude.{◌≡◌};
ghost use Rattle.rules.specs.Parts.{skip_if};
ghost use Rattle.rules.specs.Table.{ise, isg, isi};

use crate::jump::counted;
use instruction::{Count, Extension, Target};
use ones::Address;
use registers::{Index, Registers};

fn skip_if(registers: &mut Registers, taken: bool)
    ensures { registers.new ≡ skip_if taken registers.old }
{
    registers.go_on(if taken { 2 } else { 1 });
}

// ISE, ASE,S, QSE,S, ASE and QSE: equality by bits.
pub(crate) fn equal(registers: &mut Registers, target: Target, y: Address)
    ensures { registers.new ≡ ise target y registers.old }
{
    let taken = match target {
        Target::Index(b) => registers.index(b) == y,
        Target::A(Extension::Sign) => registers.a == y.extended(),
        Target::A(Extension::Zero) => Address::low(registers.a.bits()) == y,
        Target::Q(Extension::Sign) => registers.q == y.extended(),
        Target::Q(Extension::Zero) => Address::low(registers.q.bits()) == y,
    };
    skip_if(registers, taken);
}

// ISG, ASG,S, QSG,S, ASG and QSG: signed order where y is sign extended, else plain numbers.
pub(crate) fn not_below(registers: &mut Registers, target: Target, y: Address)
    ensures { registers.new ≡ isg target y registers.old }
{
    let taken = match target {
        Target::Index(b) => registers.index(b).bits() >= y.bits(),
        Target::A(Extension::Sign) => !registers.a.below(y.extended()),
        Target::A(Extension::Zero) => Address::low(registers.a.bits()).bits() >= y.bits(),
        Target::Q(Extension::Sign) => !registers.q.below(y.extended()),
        Target::Q(Extension::Zero) => Address::low(registers.q.bits()).bits() >= y.bits(),
    };
    skip_if(registers, taken);
}

// ISI and ISD.
pub(crate) fn by_index(registers: &mut Registers, count: Count, b: Index, y: Address)
    ensures { registers.new ≡ isi count b y registers.old }
{
    let value = registers.index(b);
    if value.alike(y) {
        registers.set_index(b, Address::low(0));
        registers.go_on(2);
    } else {
        registers.set_index(b, counted(count, value));
        registers.go_on(1);
    }
}
