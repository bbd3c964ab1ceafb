ghost use Rattle.std.specs.Prelude.{◌≡◌};
ghost use Rattle.rules.specs.Parts.{jump_if, related, stepped};
ghost use Rattle.rules.specs.Table.{iji};

use instruction::{Count, Relation};
use ones::{Address, Word};
use registers::{Index, Registers};

pub(crate) fn jump_if(registers: &mut Registers, taken: bool, m: Address)
    ensures { registers.new ≡ jump_if taken m registers.old }
{
    if taken {
        registers.p = m;
    } else {
        registers.go_on(1);
    }
}

// IJI and IJD.
pub(crate) fn by_index(registers: &mut Registers, count: Count, b: Index, m: Address)
    ensures { registers.new ≡ iji count b m registers.old }
{
    let value = registers.index(b);
    if value == Address::low(0) {
        registers.go_on(1);
    } else {
        registers.set_index(b, counted(count, value));
        registers.p = m;
    }
}

// AZJ and AQJ: A against another word.
pub(crate) fn compared(registers: &mut Registers, relation: Relation, other: Word, m: Address)
    ensures { registers.new ≡ jump_if (related relation registers.old.a other) m registers.old }
{
    let a = registers.a;
    let taken = match relation {
        Relation::Equal => a.alike(other),
        Relation::Unequal => !a.alike(other),
        Relation::NotBelow => !a.below(other),
        Relation::Below => a.below(other),
    };
    jump_if(registers, taken, m);
}

pub(crate) fn counted(count: Count, value: Address) -> Address
    ensures { result ≡ stepped count value }
{
    match count {
        Count::Up => value.plus(Address::low(1)),
        Count::Down => value.minus(Address::low(1)),
    }
}
