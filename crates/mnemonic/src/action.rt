// Instructions without a memory operand.
ghost use Rattle.std.specs.Prelude.{◌≡◌, Some};
ghost use Rattle.mnemonic.specs.Mnemonics.{action_mnemonic, action_modifier, by_count, by_target, key_mnemonic, relation_modifier, shift_mnemonic, target_modifier};
ghost use Rattle.mnemonic.specs.Texts.{action_index, idle, symbolic_action, target_index};

use crate::operands::Operands;
use instruction::{Action, Count, Extension, Relation, Shifted, Target};
use ones::Address;
use registers::{Index, Key};
use std::fmt;

#[derive(Clone, Copy)]
pub struct SymbolicAction {
    pub action: Action,
    pub field: Address,
}

impl fmt::Display for SymbolicAction {
    ghost output = { λ x. Some (symbolic_action x.action x.field) };

    fn fmt<W: fmt::Write>(&self, f: &mut fmt::Formatter<W>) -> fmt::Result {
        let SymbolicAction { action, field } = *self;
        if idle(action) {
            return f.write_str("NOP");
        }
        let index = index(action);
        write!(
            f,
            "{}{} {}",
            mnemonic(action),
            modifier(action),
            Operands { field, index }
        )
    }
}

// IJI, IJD and ENI of B0. INI, XOI and ANI of B0 have no effect either, but keep their names.
fn idle(action: Action) -> bool
    ensures { result ≡ idle action }
{
    match action {
        Action::IndexJump(_, index) | Action::Enter(Target::Index(index)) => index == Index::B0,
        _ => false,
    }
}

fn mnemonic(action: Action) -> &'static str
    ensures { result.now ≡ action_mnemonic action }
{
    match action {
        Action::SelectJump(key) => key_mnemonic(key),
        Action::IndexJump(count, _) => by_count(count, "IJI", "IJD"),
        Action::ZeroJump(_) => "AZJ",
        Action::QJump(_) => "AQJ",
        Action::SkipEqual(target) => by_target(target, "ISE", "ASE", "QSE"),
        Action::SkipNotBelow(target) => by_target(target, "ISG", "ASG", "QSG"),
        Action::IndexSkip(count, _) => by_count(count, "ISI", "ISD"),
        Action::Shift(shifted, _) => shift_mnemonic(shifted),
        Action::Enter(target) => by_target(target, "ENI", "ENA", "ENQ"),
        Action::Increase(target) => by_target(target, "INI", "INA", "INQ"),
        Action::ExclusiveOr(target) => by_target(target, "XOI", "XOA", "XOQ"),
        Action::And(target) => by_target(target, "ANI", "ANA", "ANQ"),
    }
}

fn key_mnemonic(key: Key) -> &'static str
    ensures { result.now ≡ key_mnemonic key }
{
    match key {
        Key::One => "SJ1",
        Key::Two => "SJ2",
        Key::Three => "SJ3",
        Key::Four => "SJ4",
        Key::Five => "SJ5",
        Key::Six => "SJ6",
    }
}

fn by_count(count: Count, up: &'static str, down: &'static str) -> &'static str
    ensures { result.now ≡ by_count count up.now down.now }
{
    match count {
        Count::Up => up,
        Count::Down => down,
    }
}

fn by_target(target: Target, index: &'static str, a: &'static str, q: &'static str) -> &'static str
    ensures { result.now ≡ by_target target index.now a.now q.now }
{
    match target {
        Target::Index(_) => index,
        Target::A(_) => a,
        Target::Q(_) => q,
    }
}

fn shift_mnemonic(shifted: Shifted) -> &'static str
    ensures { result.now ≡ shift_mnemonic shifted }
{
    match shifted {
        Shifted::A => "SHA",
        Shifted::Q => "SHQ",
        Shifted::Both => "SHAQ",
    }
}

fn modifier(action: Action) -> &'static str
    ensures { result.now ≡ action_modifier action }
{
    match action {
        Action::ZeroJump(relation) | Action::QJump(relation) => relation_modifier(relation),
        Action::SkipEqual(target)
        | Action::SkipNotBelow(target)
        | Action::Enter(target)
        | Action::Increase(target)
        | Action::ExclusiveOr(target)
        | Action::And(target) => target_modifier(target),
        _ => "",
    }
}

fn relation_modifier(relation: Relation) -> &'static str
    ensures { result.now ≡ relation_modifier relation }
{
    match relation {
        Relation::Equal => ",EQ",
        Relation::Unequal => ",NE",
        Relation::NotBelow => ",GE",
        Relation::Below => ",LT",
    }
}

fn target_modifier(target: Target) -> &'static str
    ensures { result.now ≡ target_modifier target }
{
    match target {
        Target::A(Extension::Sign) | Target::Q(Extension::Sign) => ",S",
        _ => "",
    }
}

fn index(action: Action) -> Index
    ensures { result ≡ action_index action }
{
    match action {
        Action::IndexJump(_, index) | Action::IndexSkip(_, index) | Action::Shift(_, index) => {
            index
        }
        Action::SkipEqual(target)
        | Action::SkipNotBelow(target)
        | Action::Enter(target)
        | Action::Increase(target)
        | Action::ExclusiveOr(target)
        | Action::And(target) => target_index(target),
        Action::SelectJump(_) | Action::ZeroJump(_) | Action::QJump(_) => Index::B0,
    }
}

fn target_index(target: Target) -> Index
    ensures { result ≡ target_index target }
{
    match target {
        Target::Index(index) => index,
        Target::A(_) | Target::Q(_) => Index::B0,
    }
}
