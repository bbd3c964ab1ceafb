// Instructions with a memory operand.
ghost use Rattle.std.specs.Prelude.{◌≡◌, Some};
ghost use Rattle.mnemonic.specs.Mnemonics.{change_mnemonic, indirect_modifier, operation_mnemonic, store_mnemonic, take_mnemonic, take_two_mnemonic};
ghost use Rattle.mnemonic.specs.Texts.{operation_index, symbolic_operation};

use crate::operands::Operands;
use instruction::{Change, Operation, Place, Source, Take, TakeTwo};
use registers::Index;
use std::fmt;

#[derive(Clone, Copy)]
pub struct SymbolicOperation {
    pub operation: Operation,
    pub place: Place,
}

impl fmt::Display for SymbolicOperation {
    ghost output = { λ x. Some (symbolic_operation x.operation x.place) };

    fn fmt<W: fmt::Write>(&self, f: &mut fmt::Formatter<W>) -> fmt::Result {
        let SymbolicOperation { operation, place } = *self;
        write!(
            f,
            "{}{} {}",
            mnemonic(operation),
            modifier(place.indirect),
            Operands {
                field: place.m,
                index: index(operation, place.index)
            }
        )
    }
}

fn mnemonic(operation: Operation) -> &'static str
    ensures { result.now ≡ operation_mnemonic operation }
{
    match operation {
        Operation::Jump => "UJP",
        Operation::Take(take) => take_mnemonic(take),
        Operation::TakeTwo(take) => take_two_mnemonic(take),
        Operation::Change(change) => change_mnemonic(change),
        Operation::Store(source) => store_mnemonic(source),
        Operation::StoreTwo => "STAQ",
    }
}

fn take_mnemonic(take: Take) -> &'static str
    ensures { result.now ≡ take_mnemonic take }
{
    match take {
        Take::LoadA => "LDA",
        Take::LoadQ => "LDQ",
        Take::LoadComplement => "LCA",
        Take::LoadMasked => "LDL",
        Take::Add => "ADA",
        Take::Subtract => "SBA",
        Take::Or => "SSA",
        Take::ExclusiveOr => "SCA",
        Take::And => "LPA",
        Take::Compare => "CPR",
        Take::LoadIndex(_) => "LDI",
    }
}

fn take_two_mnemonic(take: TakeTwo) -> &'static str
    ensures { result.now ≡ take_two_mnemonic take }
{
    match take {
        TakeTwo::Load => "LDAQ",
        TakeTwo::LoadComplement => "LCAQ",
        TakeTwo::Add => "ADAQ",
        TakeTwo::Subtract => "SBAQ",
    }
}

fn change_mnemonic(change: Change) -> &'static str
    ensures { result.now ≡ change_mnemonic change }
{
    match change {
        Change::Add => "RAD",
        Change::StoreAddress => "SWA",
        Change::StoreIndex(_) => "STI",
    }
}

fn store_mnemonic(source: Source) -> &'static str
    ensures { result.now ≡ store_mnemonic source }
{
    match source {
        Source::A => "STA",
        Source::Q => "STQ",
    }
}

fn modifier(indirect: bool) -> &'static str
    ensures { result.now ≡ indirect_modifier indirect }
{
    if indirect { ",I" } else { "" }
}

// LDI and STI have the register that they load or store in the place of an index.
fn index(operation: Operation, placed: Index) -> Index
    ensures { result ≡ operation_index operation placed }
{
    match operation {
        Operation::Take(Take::LoadIndex(index)) => index,
        Operation::Change(Change::StoreIndex(index)) => index,
        _ => placed,
    }
}
