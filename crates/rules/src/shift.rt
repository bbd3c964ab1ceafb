ghost use Rattle.std.specs.Prelude.{◌≡◌};
ghost use Rattle.rules.specs.Parts.{shifted_by};
ghost use Rattle.rules.specs.Table.{acted, with_aq};
ghost use Rattle.instruction.specs.declared.action.Action.TheVariants as actions;

use instruction::Shifted;
use ones::{Address, Double, Ones};
use registers::{Index, Keys, Registers};

// SHA, SHQ and SHAQ.
pub(crate) fn shift(registers: &mut Registers, shifted: Shifted, b: Index, y: Address)
    ensures { (keys : Keys) → registers.new ≡ acted (actions.Shift shifted b) keys y registers.old }
{
    let k = y.plus(registers.index(b));
    match shifted {
        Shifted::A => registers.a = shifted_by(k, registers.a),
        Shifted::Q => registers.q = shifted_by(k, registers.q),
        Shifted::Both => set_both(
            registers,
            shifted_by(k, Double::joined(registers.a, registers.q)),
        ),
    }
    registers.go_on(1);
}

// A and Q as the two halves of one number.
pub(crate) fn set_both(registers: &mut Registers, both: Double)
    ensures { registers.new ≡ with_aq registers.old both }
{
    registers.a = both.upper();
    registers.q = both.lower();
}

// Left, end around, by k, or right by its complement where its sign is set.
fn shifted_by<const W: u32>(k: Address, x: Ones<W>) -> Ones<W>
    ensures { result ≡ shifted_by k x.entry }
{
    // the sign of k, of whose bits the count is made
    if k.bits() >= 0o40000 {
        x.right((k.complement().bits() % 64) as u32)
    } else {
        x.left((k.bits() % 64) as u32)
    }
}
