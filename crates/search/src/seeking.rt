ghost use Rattle.std.specs.Prelude.{◌≡◌, suc};
ghost use Rattle.rules.specs.Parts.{search_ended, sought};
ghost use Rattle.rules.specs.Sight.{left, outcome, sight};
ghost use Rattle.rules.specs.Table.{hits, searched};
ghost use Rattle.search.specs.Found.{Searches};
ghost use Rattle.view.specs.Seen.{reads_at};

use answers::Fault;
use instruction::{Interval, Search};
use ones::{Address, Word};
use pages::Group;
use registers::Registers;
use store::Store;

// From B1 down by the interval, until a word hits.
pub fn search<S: Store>(
    registers: &mut Registers,
    store: &S,
    group: Group,
    search: Search,
    interval: Interval,
    m: Address,
) -> Result<(), Fault>
    ensures answer { result ≡ outcome (searched search interval m (sight (S.Store.meaning store.now) group.number) registers.old) }
    ensures registers { registers.new ≡ left registers.old (searched search interval m (sight (S.Store.meaning store.now) group.number) registers.old) }
    ensures found { Searches (reads_at (S.Store.meaning store.now) group.number) (hits search registers.old) m interval.words registers.old registers.new result }
{
    let found = seek(registers, store, group, search, interval, m)?;
    end(registers, found);
    Ok(())
}

// The number whose word hit; a search that stops at a fault leaves B1 alone.
fn seek<S: Store>(
    registers: &Registers,
    store: &S,
    group: Group,
    search: Search,
    interval: Interval,
    m: Address,
) -> Result<Option<Address>, Fault>
    ensures { result ≡ sought (suc registers.now.b1.bits) (reads_at (S.Store.meaning store.now) group.number) (hits search registers.now) m interval.words registers.now.b1.bits }
{
    let step = u64::from(interval.words());
    let mut number = registers.b1.bits();
    // Not a `for`: `(step..=b1).rev().step_by(step)` gives each number before its subtraction, so that the body would subtract again, and of
    // `iter::successors`, which would give them after it, no proof knows that it ends.
    while number >= step {
        number -= step;
        let at = Address::low(number);
        let word = view::read(store, group, m.plus(at))?;
        if hits(search, registers, word) {
            return Ok(Some(at));
        }
    }
    Ok(None)
}

fn hits(search: Search, registers: &Registers, word: Word) -> bool
    ensures { result ≡ hits search registers.now word }
{
    let masked = registers.q.and(word);
    match search {
        Search::Equal => registers.a == masked,
        Search::Threshold => !registers.a.below(masked),
    }
}

fn end(registers: &mut Registers, found: Option<Address>)
    ensures { registers.new ≡ search_ended registers.old found }
{
    match found {
        Some(number) => {
            registers.b1 = number;
            registers.go_on(2);
        }
        None => {
            registers.b1 = Address::low(0);
            registers.go_on(1);
        }
    }
}
