// Where a group's address leads, in both styles.
ghost use Rattle.printing.specs.Texts.{console_lead, plain_lead};
ghost use Rattle.std.specs.Prelude.{Some};

use crate::octal::OctalAddress;
use crate::refused::{ConsoleFault, PlainFault};
use answers::Fault;
use std::fmt;

// A core address and the cell that it reads.
#[derive(Clone, Copy, PartialEq, Eq, Debug)]
pub struct Spot {
    pub address: u32,
    pub cell: u32,
}

// The lead for people.
#[derive(Drop)]
pub struct ConsoleLead(pub Result<Spot, Fault>);

impl fmt::Display for ConsoleLead {
    ghost output = { λ x. Some (console_lead x.0) };

    fn fmt<W: fmt::Write>(&self, f: &mut fmt::Formatter<W>) -> fmt::Result {
        match self.0 {
            Ok(spot) => write!(
                f,
                "core {}, cell {}",
                OctalAddress(spot.address),
                OctalAddress(spot.cell)
            ),
            Err(fault) => write!(f, "{}", ConsoleFault(fault)),
        }
    }
}

// The lead as three numbers: cause, or 0, and then layer and address, or core address and cell.
#[derive(Drop)]
pub struct PlainLead(pub Result<Spot, Fault>);

impl fmt::Display for PlainLead {
    ghost output = { λ x. Some (plain_lead x.0) };

    fn fmt<W: fmt::Write>(&self, f: &mut fmt::Formatter<W>) -> fmt::Result {
        match self.0 {
            Ok(spot) => write!(f, " 0 {} {}", spot.address, spot.cell),
            Err(fault) => write!(f, "{}", PlainFault(fault)),
        }
    }
}
