ghost use Rattle.std.specs.Prelude.{◌≡◌};
ghost use Rattle.rules.specs.Table.{acted};

use crate::{immediate, jump, shift, skip};
use instruction::Action;
use ones::{Address, Word};
use registers::{Keys, Registers};

// An instruction without a memory operand; y is its low 15 bits.
pub fn act(registers: &mut Registers, action: Action, keys: Keys, y: Address)
    ensures { registers.new ≡ acted action keys y registers.old }
{
    match action {
        Action::SelectJump(key) => jump::jump_if(registers, keys.set(key), y),
        Action::IndexJump(count, b) => jump::by_index(registers, count, b, y),
        Action::ZeroJump(relation) => jump::compared(registers, relation, Word::low(0), y),
        Action::QJump(relation) => jump::compared(registers, relation, registers.q, y),
        Action::SkipEqual(target) => skip::equal(registers, target, y),
        Action::SkipNotBelow(target) => skip::not_below(registers, target, y),
        Action::IndexSkip(count, b) => skip::by_index(registers, count, b, y),
        Action::Shift(shifted, b) => shift::shift(registers, shifted, b, y),
        Action::Enter(target) => immediate::enter(registers, target, y),
        Action::Increase(target) => immediate::increase(registers, target, y),
        Action::ExclusiveOr(target) => immediate::exclusive_or(registers, target, y),
        Action::And(target) => immediate::and(registers, target, y),
    }
}
