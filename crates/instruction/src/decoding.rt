ghost use Rattle.std.specs.Prelude.{◌≡◌};
ghost use Rattle.instruction.specs.Decode.{by_code, decoded};

use crate::action::{Action, Count, Relation, Shifted, Target};
use crate::digit::Digit;
use crate::instruction::{Instruction, Search};
use crate::interval::Interval;
use crate::operation::{Change, Operation, Source, Take, TakeTwo};
use crate::place::{Mode, Place};
use ones::{Address, Word};
use registers::{Index, Key};

#[tactic(auto, unfolding(crate::specs::Decode::decoded))]
pub fn decode(word: Word) -> Instruction
    ensures { result ≡ decoded word }
{
    let bits = word.bits();
    by_code(
        bits / 0o1_000_000,
        Digit::low(bits / 0o100_000),
        bits / 0o10_000 % 64,
        word,
    )
}

// By code, third digit and the sub-operation of code 77.
fn by_code(code: u64, d: Digit, sub: u64, word: Word) -> Instruction
    ensures { result ≡ by_code code d.value sub word }
{
    let y = Address::low(word.bits());
    let place = Place::of(Mode::Indexed, word);
    match (code, d.value) {
        (0o00, 0) => Instruction::Executive,
        (0o00, 1..=6) => Instruction::Act(Action::SelectJump(Key::from(d)), y),
        (0o00, 7) => Instruction::ReturnJump(y),
        (0o01, _) => Instruction::Operate(Operation::Jump, place),
        (0o02, _) => Instruction::Act(Action::IndexJump(Count::from(d), Index::from(d)), y),
        (0o03, 0..=3) => Instruction::Act(Action::ZeroJump(Relation::from(d)), y),
        (0o03, 4..=7) => Instruction::Act(Action::QJump(Relation::from(d)), y),
        (0o04, _) => Instruction::Act(Action::SkipEqual(Target::from(d)), y),
        (0o05, _) => Instruction::Act(Action::SkipNotBelow(Target::from(d)), y),
        (0o06, _) => Instruction::Search(Search::Equal, Interval::from(d), y),
        (0o07, _) => Instruction::Search(Search::Threshold, Interval::from(d), y),
        (0o10, 1..=7) => Instruction::Act(Action::IndexSkip(Count::from(d), Index::from(d)), y),
        (0o12, 0..=3) => Instruction::Act(Action::Shift(Shifted::A, Index::from(d)), y),
        (0o12, 4..=7) => Instruction::Act(Action::Shift(Shifted::Q, Index::from(d)), y),
        (0o13, 0..=3) => Instruction::Act(Action::Shift(Shifted::Both, Index::from(d)), y),
        (0o14, _) => Instruction::Act(Action::Enter(Target::from(d)), y),
        (0o15, _) => Instruction::Act(Action::Increase(Target::from(d)), y),
        (0o16, _) => Instruction::Act(Action::ExclusiveOr(Target::from(d)), y),
        (0o17, _) => Instruction::Act(Action::And(Target::from(d)), y),
        (0o20, _) => Instruction::Operate(Operation::Take(Take::LoadA), place),
        (0o21, _) => Instruction::Operate(Operation::Take(Take::LoadQ), place),
        (0o24, _) => Instruction::Operate(Operation::Take(Take::LoadComplement), place),
        (0o25, _) => Instruction::Operate(Operation::TakeTwo(TakeTwo::Load), place),
        (0o26, _) => Instruction::Operate(Operation::TakeTwo(TakeTwo::LoadComplement), place),
        (0o27, _) => Instruction::Operate(Operation::Take(Take::LoadMasked), place),
        (0o30, _) => Instruction::Operate(Operation::Take(Take::Add), place),
        (0o31, _) => Instruction::Operate(Operation::Take(Take::Subtract), place),
        (0o32, _) => Instruction::Operate(Operation::TakeTwo(TakeTwo::Add), place),
        (0o33, _) => Instruction::Operate(Operation::TakeTwo(TakeTwo::Subtract), place),
        (0o34, _) => Instruction::Operate(Operation::Change(Change::Add), place),
        (0o35, _) => Instruction::Operate(Operation::Take(Take::Or), place),
        (0o36, _) => Instruction::Operate(Operation::Take(Take::ExclusiveOr), place),
        (0o37, _) => Instruction::Operate(Operation::Take(Take::And), place),
        (0o40, _) => Instruction::Operate(Operation::Store(Source::A), place),
        (0o41, _) => Instruction::Operate(Operation::Store(Source::Q), place),
        (0o44, _) => Instruction::Operate(Operation::Change(Change::StoreAddress), place),
        (0o45, _) => Instruction::Operate(Operation::StoreTwo, place),
        (0o47, _) => Instruction::Operate(
            Operation::Change(Change::StoreIndex(Index::from(d))),
            Place::of(Mode::Unindexed, word),
        ),
        (0o52, _) => Instruction::Operate(Operation::Take(Take::Compare), place),
        (0o54, _) => Instruction::Operate(
            Operation::Take(Take::LoadIndex(Index::from(d))),
            Place::of(Mode::Unindexed, word),
        ),
        (0o77, _) if sub == 0o70 || sub == 0o77 => Instruction::Executive,
        _ => Instruction::Illegal,
    }
}
