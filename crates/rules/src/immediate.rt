ghost use Rattle.std.specs.Prelude.{◌≡◌};
ghost use Rattle.rules.specs.Parts.{Combines, widened};
ghost use Rattle.rules.specs.Table.{eni, ini, xoi, ani};

use instruction::{Extension, Target};
use ones::{Address, Word};
use registers::Registers;

// ENI, ENA and ENQ.
pub(crate) fn enter(registers: &mut Registers, target: Target, y: Address)
    ensures { registers.new ≡ eni target y registers.old }
{
    combine(registers, target, y, |_, y| y, |_, y| y);
}

// INI, INA and INQ: the latch is not touched.
pub(crate) fn increase(registers: &mut Registers, target: Target, y: Address)
    ensures { registers.new ≡ ini target y registers.old }
{
    combine(registers, target, y, Address::plus, Word::plus);
}

// XOI, XOA and XOQ.
pub(crate) fn exclusive_or(registers: &mut Registers, target: Target, y: Address)
    ensures { registers.new ≡ xoi target y registers.old }
{
    combine(registers, target, y, Address::xor, Word::xor);
}

// ANI, ANA and ANQ.
pub(crate) fn and(registers: &mut Registers, target: Target, y: Address)
    ensures { registers.new ≡ ani target y registers.old }
{
    combine(registers, target, y, Address::and, Word::and);
}

// A register becomes what it and y, brought to its width, combine to.
fn combine<B, W>(registers: &mut Registers, target: Target, y: Address, by_address: B, by_word: W)
where
    B: FnOnce(Address, Address) -> Address,
    W: FnOnce(Word, Word) -> Word,
    requires addresses { B.IsAlwaysCallable by_address }
    requires words { W.IsAlwaysCallable by_word }
    ensures { Combines (B.post by_address) (W.post by_word) target y registers.old registers.new }
{
    match target {
        Target::Index(b) => registers.set_index(b, by_address(registers.index(b), y)),
        Target::A(extension) => registers.a = by_word(registers.a, widened(extension, y)),
        Target::Q(extension) => registers.q = by_word(registers.q, widened(extension, y)),
    }
    registers.go_on(1);
}

fn widened(extension: Extension, y: Address) -> Word
    ensures { result ≡ widened extension y }
{
    match extension {
        Extension::Sign => y.extended(),
        Extension::Zero => Word::low(y.bits()),
    }
}
