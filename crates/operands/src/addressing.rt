ghost use Rattle.std.specs.Prelude.{◌≡◌};
ghost use Rattle.rules.specs.Parts.{effective, indexed};
ghost use Rattle.view.specs.Seen.{reads_at};

use answers::Fault;
use instruction::Place;
use ones::Address;
use pages::Group;
use registers::{Index, Registers};
use store::Store;

// The most indirect words that an instruction may read.
const INDIRECT_WORDS: u32 = 64;

// The effective address, or none where a place leads through too many indirect words.
pub fn effective<S: Store>(
    store: &S,
    group: Group,
    registers: &Registers,
    place: Place,
) -> Result<Option<Address>, Fault>
    ensures { result ≡ effective 64 (reads_at (S.Store.meaning store.now) group.number) registers.now place }
{
    let mut place = place;
    for _read in 0..INDIRECT_WORDS {
        if !place.indirect {
            break;
        }
        let word = view::read(store, group, indexed(registers, place.m, place.index))?;
        place = Place::of(place.mode, word);
    }
    if place.indirect {
        Ok(None)
    } else {
        Ok(Some(indexed(registers, place.m, place.index)))
    }
}

fn indexed(registers: &Registers, m: Address, b: Index) -> Address
    ensures { result ≡ indexed m b registers.now }
{
    match b {
        Index::B0 => m,
        Index::B1 => m.plus(registers.b1),
        Index::B2 => m.plus(registers.b2),
        Index::B3 => m.plus(registers.b3),
    }
}
