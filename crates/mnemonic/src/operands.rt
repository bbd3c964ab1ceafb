ghost use Rattle.std.specs.Prelude.{◌≡◌, Some};
ghost use Rattle.mnemonic.specs.Texts.{index_suffix, operands};

use ones::Address;
use printing::octal::OctalField;
use registers::Index;
use std::fmt;

// The field m or y, and the index register unless it is B0.
#[derive(Clone, Copy)]
pub struct Operands {
    pub field: Address,
    pub index: Index,
}

impl fmt::Display for Operands {
    ghost output = { λ x. Some (operands x.field x.index) };

    fn fmt<W: fmt::Write>(&self, f: &mut fmt::Formatter<W>) -> fmt::Result {
        write!(f, "{}{}", octal(self.field), suffix(self.index))
    }
}

pub(crate) fn octal(field: Address) -> OctalField
    ensures { result.number ≡ field.bits }
{
    OctalField {
        number: field.bits() as u32,
    }
}

fn suffix(index: Index) -> &'static str
    ensures { result.now ≡ index_suffix index }
{
    match index {
        Index::B0 => "",
        Index::B1 => ",1",
        Index::B2 => ",2",
        Index::B3 => ",3",
    }
}
