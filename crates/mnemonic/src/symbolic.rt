ghost use Rattle.std.specs.Prelude.{◌≡◌, Some};
ghost use Rattle.instruction.specs.Decode.{decoded};
ghost use Rattle.mnemonic.specs.Mnemonics.{masked_mnemonic};
ghost use Rattle.mnemonic.specs.Texts.{symbolic, symbolic_executive};

use crate::action::SymbolicAction;
use crate::operands::octal;
use crate::operation::SymbolicOperation;
use instruction::{Instruction, Search, decode};
use ones::{Address, Word};
use std::fmt;

// An instruction word, or nothing for a word that is no instruction.
#[derive(Clone, Copy)]
pub struct Symbolic(pub Word);

impl fmt::Display for Symbolic {
    ghost output = { λ x. Some (symbolic x.0 (decoded x.0)) };

    fn fmt<W: fmt::Write>(&self, f: &mut fmt::Formatter<W>) -> fmt::Result {
        let word = self.0;
        match decode(word) {
            Instruction::Executive => write!(f, "{}", SymbolicExecutive(word)),
            Instruction::Illegal => Ok(()),
            Instruction::Act(action, field) => write!(f, "{}", SymbolicAction { action, field }),
            Instruction::ReturnJump(field) => write!(f, "RTJ {}", octal(field)),
            Instruction::Search(masked, interval, field) => write!(
                f,
                "{} {},{}",
                masked_mnemonic(masked),
                octal(field),
                interval.words()
            ),
            Instruction::Operate(operation, place) => {
                write!(f, "{}", SymbolicOperation { operation, place })
            }
        }
    }
}

// An executive's instruction, whose three codes decode to one.
#[derive(Clone, Copy)]
pub struct SymbolicExecutive(pub Word);

impl fmt::Display for SymbolicExecutive {
    ghost output = { λ x. Some (symbolic_executive x.0) };

    fn fmt<W: fmt::Write>(&self, f: &mut fmt::Formatter<W>) -> fmt::Result {
        let bits = self.0.bits();
        match bits / 0o10_000 {
            0o7770 => f.write_str("SLS"),
            0o7777 => f.write_str("UCS"),
            _ => write!(f, "HLT {}", octal(Address::low(bits))),
        }
    }
}

fn masked_mnemonic(masked: Search) -> &'static str
    ensures { result.now ≡ masked_mnemonic masked }
{
    match masked {
        Search::Equal => "MEQ",
        Search::Threshold => "MTH",
    }
}
