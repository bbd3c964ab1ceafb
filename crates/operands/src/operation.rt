ghost use Rattle.rules.specs.Carried.{Carried};
ghost use Rattle.rules.specs.Sight.{sight};
ghost use Rattle.rules.specs.Table.{operated};

use crate::{changing, reading, storing};
use answers::Fault;
use instruction::Operation;
use ones::Address;
use pages::Group;
use registers::Registers;
use store::Store;

// What an instruction does at its effective address m.
pub fn operate<S: Store>(
    registers: &mut Registers,
    store: &mut S,
    group: Group,
    operation: Operation,
    m: Address,
) -> Result<(), Fault>
    ensures { Carried S.Store.meaning S.Store.wrote group.number (operated operation m (sight (S.Store.meaning store.old) group.number) registers.old) registers.old registers.new store.old store.new result }
{
    match operation {
        Operation::Jump => {
            registers.p = m;
            Ok(())
        }
        Operation::Take(take) => reading::take(registers, store, group, take, m),
        Operation::TakeTwo(take) => reading::take_two(registers, store, group, take, m),
        Operation::Change(change) => changing::change(registers, store, group, change, m),
        Operation::Store(source) => storing::put(registers, store, group, source, m),
        Operation::StoreTwo => storing::put_two(registers, store, group, m),
    }
}
