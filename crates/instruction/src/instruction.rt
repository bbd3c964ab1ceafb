use crate::action::Action;
use crate::interval::Interval;
use crate::operation::Operation;
use crate::place::Place;
use ones::Address;

#[derive(Clone, Copy, PartialEq, Eq, Debug)]
pub enum Instruction {
    // one that only an executive may carry out
    Executive,
    // none that the machine has
    Illegal,
    Act(Action, Address),
    ReturnJump(Address),
    Search(Search, Interval, Address),
    Operate(Operation, Place),
}

// What a search looks for.
#[derive(Clone, Copy, PartialEq, Eq, Debug)]
pub enum Search {
    Equal,
    Threshold,
}
