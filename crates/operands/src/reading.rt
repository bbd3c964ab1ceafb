ghost use Rattle.std.specs.Prelude.{◌≡◌};
ghost use Rattle.rules.specs.Parts.{reading, reading_two};
ghost use Rattle.rules.specs.Sight.{left, outcome, sight};
ghost use Rattle.rules.specs.Table.{taken, taken_two};

use answers::Fault;
use instruction::{Take, TakeTwo};
use ones::Address;
use pages::Group;
use registers::Registers;
use store::Store;

pub(crate) fn take<S: Store>(
    registers: &mut Registers,
    store: &S,
    group: Group,
    take: Take,
    m: Address,
) -> Result<(), Fault>
    ensures answer { result ≡ outcome (reading (taken take) m (sight (S.Store.meaning store.now) group.number) registers.old) }
    ensures registers { registers.new ≡ left registers.old (reading (taken take) m (sight (S.Store.meaning store.now) group.number) registers.old) }
{
    let word = view::read(store, group, m)?;
    rules::take(registers, take, word);
    Ok(())
}

pub(crate) fn take_two<S: Store>(
    registers: &mut Registers,
    store: &S,
    group: Group,
    take: TakeTwo,
    m: Address,
) -> Result<(), Fault>
    ensures answer { result ≡ outcome (reading_two (taken_two take) m (sight (S.Store.meaning store.now) group.number) registers.old) }
    ensures registers { registers.new ≡ left registers.old (reading_two (taken_two take) m (sight (S.Store.meaning store.now) group.number) registers.old) }
{
    let first = view::read(store, group, m)?;
    let second = view::read(store, group, m.counted(1))?;
    rules::take_two(registers, take, first, second);
    Ok(())
}
