// A group's own 15-bit addresses in any store that has the addresses of all groups.
#![tactic(auto)]

ghost use Rattle.std.specs.Prelude.{◌≡◌};
ghost use Rattle.pages.specs.View.{original};
ghost use Rattle.store.specs.Meaning.{after, settled};
ghost use Rattle.view.specs.Seen.{reads_at, takes_at};

use answers::Fault;
use ones::{Address, Word};
use pages::{Group, original};
use store::Store;

// Store and group stay two parameters. A struct of both was tried: it proves where the store is a type parameter, but the prover does not cover
// it over a store that holds both a `&mut` and page descriptors, and a reader that has only a `&` could not make one.
pub fn read<S: Store>(store: &S, group: Group, address: Address) -> Result<Word, Fault>
    ensures { result ≡ reads_at (S.Store.meaning store.now) group.number address }
{
    let number = store.read(original(group, address))?;
    Ok(Word::low(u64::from(number)))
}

// Would a group's write be taken?
pub fn ask<S: Store>(store: &S, group: Group, address: Address) -> Result<(), Fault>
    ensures { result ≡ takes_at (S.Store.meaning store.now) group.number address }
{
    store.ask(original(group, address))
}

pub fn write<S: Store>(
    store: &mut S,
    group: Group,
    address: Address,
    word: Word,
) -> Result<(), Fault>
    ensures answer { result ≡ takes_at (S.Store.meaning store.old) group.number address }
    ensures effect { S.Store.meaning store.new ≡ after result (S.Store.meaning store.old) (original group.number address.bits) word.bits }
    ensures whole { store.new ≡ settled result (S.Store.wrote store.old (original group.number address.bits) word.bits) store.old }
{
    store.write(original(group, address), word.bits() as u32)
}
