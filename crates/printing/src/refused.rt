// Faults and refusals, in both styles.
ghost use Rattle.printing.specs.Texts.{console_fault, console_refused, plain_fault, plain_refused};
ghost use Rattle.std.specs.Prelude.{Some};

use crate::call::Call;
use crate::octal::OctalAddress;
use answers::{Fault, Refusal};
use std::fmt;

// A fault for people.
#[derive(Drop)]
pub struct ConsoleFault(pub Fault);

impl fmt::Display for ConsoleFault {
    ghost output = { λ x. Some (console_fault x.0) };

    fn fmt<W: fmt::Write>(&self, f: &mut fmt::Formatter<W>) -> fmt::Result {
        let Fault {
            cause,
            layer,
            address,
        } = self.0;
        write!(
            f,
            "fault {} ({cause}), layer {} ({layer}), address {}",
            cause.number(),
            layer.number(),
            OctalAddress(address)
        )
    }
}

// A fault as numbers, each after a blank: cause, layer and address.
#[derive(Drop)]
pub struct PlainFault(pub Fault);

impl fmt::Display for PlainFault {
    ghost output = { λ x. Some (plain_fault x.0) };

    fn fmt<W: fmt::Write>(&self, f: &mut fmt::Formatter<W>) -> fmt::Result {
        let Fault {
            cause,
            layer,
            address,
        } = self.0;
        write!(f, " {} {} {address}", cause.number(), layer.number())
    }
}

// A refused call for people.
#[derive(Drop)]
pub struct ConsoleRefused {
    pub call: Call,
    pub refusal: Refusal,
}

impl fmt::Display for ConsoleRefused {
    ghost output = { λ x. Some (console_refused x.call x.refusal) };

    fn fmt<W: fmt::Write>(&self, f: &mut fmt::Formatter<W>) -> fmt::Result {
        let call = self.call;
        let number = self.refusal.number();
        match self.refusal.fault() {
            Some(fault) => write!(f, "{call} refused {number}: {}", ConsoleFault(fault)),
            None => write!(f, "{call} refused {number}: {}", self.refusal),
        }
    }
}

// A refused call as numbers.
#[derive(Drop)]
pub struct PlainRefused {
    pub call: Call,
    pub refusal: Refusal,
}

impl fmt::Display for PlainRefused {
    ghost output = { λ x. Some (plain_refused x.call x.refusal) };

    fn fmt<W: fmt::Write>(&self, f: &mut fmt::Formatter<W>) -> fmt::Result {
        let call = self.call;
        let number = self.refusal.number();
        match self.refusal.fault() {
            Some(fault) => write!(f, "{call} refused {number}{}", PlainFault(fault)),
            None => write!(f, "{call} refused {number}"),
        }
    }
}
