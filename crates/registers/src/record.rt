use crate::registers::Registers;
use crate::trap::Trap;

// No Option: how a step came out is matched together with the state that it leaves, in place in the record, and there each is named.
#[derive(Clone, Copy, PartialEq, Eq, Debug)]
pub enum State {
    Running,
    Stopped(Trap),
}

// What a group leaves behind between its turns.
#[derive(Clone, Copy, PartialEq, Eq, Debug)]
pub struct Record {
    pub registers: Registers,
    pub state: State,
}
