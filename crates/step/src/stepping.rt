ghost use Rattle.rules.specs.Carried.{Carried};
ghost use Rattle.rules.specs.Sight.{sight};
ghost use Rattle.rules.specs.Table.{executed, step};
ghost use Rattle.step.specs.Laws.{Goes, SeesOnly, TrapKeeps, Widths, WritesOnly};

use instruction::Instruction;
use pages::Group;
use registers::{Keys, Registers, Trap};
use store::Store;

// Carries out the instruction at P, or traps and changes nothing.
pub fn step<S: Store>(
    registers: &mut Registers,
    store: &mut S,
    group: Group,
    keys: Keys,
) -> Result<(), Trap>
    ensures carried { Carried S.Store.meaning S.Store.wrote group.number (step keys (sight (S.Store.meaning store.old) group.number) registers.old) registers.old registers.new store.old store.new result }
    ensures sees { SeesOnly keys (S.Store.meaning store.old) group.number registers.old }
    ensures writes { WritesOnly (S.Store.meaning store.old) (S.Store.meaning store.new) group.number }
    ensures trapped { TrapKeeps result registers.old registers.new store.old store.new }
    ensures goes { Goes result (sight (S.Store.meaning store.old) group.number) registers.old registers.new }
    ensures widths { Widths registers.new }
{
    let word = view::read(store, group, registers.p)?;
    execute(registers, store, group, keys, instruction::decode(word))
}

fn execute<S: Store>(
    registers: &mut Registers,
    store: &mut S,
    group: Group,
    keys: Keys,
    instruction: Instruction,
) -> Result<(), Trap>
    ensures { Carried S.Store.meaning S.Store.wrote group.number (executed instruction keys (sight (S.Store.meaning store.old) group.number) registers.old) registers.old registers.new store.old store.new result }
{
    match instruction {
        Instruction::Executive => return Err(Trap::Executive(registers.p)),
        Instruction::Illegal => return Err(Trap::Illegal(registers.p)),
        Instruction::Act(action, y) => rules::act(registers, action, keys, y),
        Instruction::ReturnJump(m) => operands::return_jump(registers, store, group, m)?,
        Instruction::Search(search, interval, m) => {
            search::search(registers, store, group, search, interval, m)?;
        }
        Instruction::Operate(operation, place) => {
            let Some(m) = operands::effective(store, group, registers, place)? else {
                return Err(Trap::Indirect(registers.p));
            };
            operands::operate(registers, store, group, operation, m)?;
        }
    }
    Ok(())
}
