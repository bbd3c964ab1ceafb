ghost use Rattle.std.specs.Prelude.{◌≡◌};
ghost use Rattle.operands.specs.ReturnJump.{Returns};
ghost use Rattle.rules.specs.Carried.{Carried};
ghost use Rattle.rules.specs.Parts.{changing};
ghost use Rattle.rules.specs.Sight.{bind, sight};
ghost use Rattle.rules.specs.Table.{change_left, changed, rtj};
ghost use Rattle.view.specs.Seen.{reads_at, takes_at};

use answers::Fault;
use instruction::Change;
use ones::{Address, Word};
use pages::Group;
use registers::Registers;
use store::Store;

pub(crate) fn change<S: Store>(
    registers: &mut Registers,
    store: &mut S,
    group: Group,
    change: Change,
    m: Address,
) -> Result<(), Fault>
    ensures { Carried S.Store.meaning S.Store.wrote group.number (changing (changed change) (change_left change) m (sight (S.Store.meaning store.old) group.number) registers.old) registers.old registers.new store.old store.new result }
{
    let word = asked(store, group, m)?;
    let mut after = *registers;
    view::write(store, group, m, rules::change(&mut after, change, word))?;
    *registers = after;
    Ok(())
}

// RTJ: the word at m gets the address after the jump, and the program goes on behind it.
pub fn return_jump<S: Store>(
    registers: &mut Registers,
    store: &mut S,
    group: Group,
    m: Address,
) -> Result<(), Fault>
    ensures carried { Carried S.Store.meaning S.Store.wrote group.number (rtj m (sight (S.Store.meaning store.old) group.number) registers.old) registers.old registers.new store.old store.new result }
    ensures returns { Returns S.Store.meaning group.number m registers.old registers.new store.old store.new result }
{
    let word = asked(store, group, m)?;
    view::write(store, group, m, word.with_low(registers.p.counted(1)))?;
    registers.p = m.counted(1);
    Ok(())
}

// The word at m, once a write there was asked for.
fn asked<S: Store>(store: &S, group: Group, m: Address) -> Result<Word, Fault>
    ensures { result ≡ bind (takes_at (S.Store.meaning store.now) group.number m) (λ _. reads_at (S.Store.meaning store.now) group.number m) }
{
    view::ask(store, group, m)?;
    view::read(store, group, m)
}
