ghost use Rattle.rules.specs.Carried.{Carried};
ghost use Rattle.rules.specs.Parts.{storing, storing_two};
ghost use Rattle.rules.specs.Sight.{sight};
ghost use Rattle.rules.specs.Table.{st};
ghost use Rattle.instruction.specs.declared.operation.Source.TheVariants as sources;

use answers::Fault;
use instruction::Source;
use ones::Address;
use pages::Group;
use registers::Registers;
use store::Store;

pub(crate) fn put<S: Store>(
    registers: &mut Registers,
    store: &mut S,
    group: Group,
    source: Source,
    m: Address,
) -> Result<(), Fault>
    ensures { Carried S.Store.meaning S.Store.wrote group.number (storing (st source) m (sight (S.Store.meaning store.old) group.number) registers.old) registers.old registers.new store.old store.new result }
{
    let word = match source {
        Source::A => registers.a,
        Source::Q => registers.q,
    };
    view::write(store, group, m, word)?;
    registers.go_on(1);
    Ok(())
}

// Both writes are asked for before the first is made.
pub(crate) fn put_two<S: Store>(
    registers: &mut Registers,
    store: &mut S,
    group: Group,
    m: Address,
) -> Result<(), Fault>
    ensures { Carried S.Store.meaning S.Store.wrote group.number (storing_two (st sources.A) (st sources.Q) m (sight (S.Store.meaning store.old) group.number) registers.old) registers.old registers.new store.old store.new result }
{
    let second = m.counted(1);
    view::ask(store, group, m)?;
    view::ask(store, group, second)?;
    view::write(store, group, m, registers.a)?;
    view::write(store, group, second, registers.q)?;
    registers.go_on(1);
    Ok(())
}
