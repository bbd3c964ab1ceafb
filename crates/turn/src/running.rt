ghost use Rattle.std.specs.Prelude.{◌≡◌};
ghost use Rattle.registers.specs.declared.record.State.TheVariants.{Running};
ghost use Rattle.turn.specs.Turns.{Advanced, Ran, Turning};

use crate::turned::Turned;
use pages::Group;
use registers::{Keys, Record, State, Trap};
use store::Store;

// Up to `length` instructions of a group that runs; nothing of one that is stopped.
pub fn turn<S: Store>(
    record: &mut Record,
    store: &mut S,
    group: Group,
    keys: Keys,
    length: u32,
) -> Option<Turned>
    ensures { Turning S.Store.meaning S.Store.wrote keys group.number length «record».old «record».new store.old store.new result }
{
    match record.state {
        State::Running => Some(run(record, store, group, keys, length)),
        State::Stopped(_) => None,
    }
}

fn run<S: Store>(
    record: &mut Record,
    store: &mut S,
    group: Group,
    keys: Keys,
    length: u32,
) -> Turned
    requires { «record».old.state ≡ Running }
    ensures { Ran S.Store.meaning S.Store.wrote keys group.number length «record».old «record».new store.old store.new result }
{
    for count in 0..length {
        if let Err(trap) = advance(record, store, group, keys) {
            return Turned {
                count,
                trap: Some(trap),
            };
        }
    }
    Turned {
        count: length,
        trap: None,
    }
}

// One instruction; one that traps stops the group.
fn advance<S: Store>(
    record: &mut Record,
    store: &mut S,
    group: Group,
    keys: Keys,
) -> Result<(), Trap>
    requires { «record».old.state ≡ Running }
    ensures { Advanced S.Store.meaning S.Store.wrote keys group.number «record».old «record».new store.old store.new result }
{
    let outcome = step::step(&mut record.registers, store, group, keys);
    match (&mut record.state, outcome) {
        (State::Stopped(_), _) => unreachable!(),
        (_, Ok(())) => Ok(()),
        (state, Err(trap)) => {
            *state = State::Stopped(trap);
            Err(trap)
        }
    }
}
