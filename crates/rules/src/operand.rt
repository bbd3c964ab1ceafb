ghost use Rattle.std.specs.Prelude.{◌≡◌};
ghost use Rattle.rules.specs.Table.{cpr, taken, taken_two, changed, change_left};

use crate::shift::set_both;
use instruction::{Change, Take, TakeTwo};
use ones::{Address, Double, Word};
use registers::Registers;

// An instruction that reads one word.
pub fn take(registers: &mut Registers, take: Take, word: Word)
    ensures { registers.new ≡ taken take word registers.old }
{
    let a = registers.a;
    match take {
        Take::LoadA => registers.a = word,
        Take::LoadQ => registers.q = word,
        Take::LoadComplement => registers.a = word.complement(),
        Take::LoadMasked => registers.a = word.and(registers.q),
        Take::Add => {
            registers.a = a.plus(word);
            registers.latch = registers.latch || a.sum_overflows(word);
        }
        Take::Subtract => {
            registers.a = a.minus(word);
            registers.latch = registers.latch || a.difference_overflows(word);
        }
        Take::Or => registers.a = a.or(word),
        Take::ExclusiveOr => registers.a = a.xor(word),
        Take::And => registers.a = a.and(word),
        Take::Compare => return compare(registers, word),
        Take::LoadIndex(b) => registers.set_index(b, Address::low(word.bits())),
    }
    registers.go_on(1);
}

// CPR.
fn compare(registers: &mut Registers, word: Word)
    ensures { registers.new ≡ cpr word registers.old }
{
    let n = if registers.a.below(word) {
        1
    } else if word.below(registers.q) {
        2
    } else {
        3
    };
    registers.go_on(n);
}

// An instruction that reads two words.
pub fn take_two(registers: &mut Registers, take: TakeTwo, first: Word, second: Word)
    ensures { registers.new ≡ taken_two take first second registers.old }
{
    let both = Double::joined(registers.a, registers.q);
    let other = Double::joined(first, second);
    match take {
        TakeTwo::Load => {
            registers.a = first;
            registers.q = second;
        }
        TakeTwo::LoadComplement => {
            registers.a = first.complement();
            registers.q = second.complement();
        }
        TakeTwo::Add => {
            set_both(registers, both.plus(other));
            registers.latch = registers.latch || both.sum_overflows(other);
        }
        TakeTwo::Subtract => {
            set_both(registers, both.minus(other));
            registers.latch = registers.latch || both.difference_overflows(other);
        }
    }
    registers.go_on(1);
}

// An instruction that puts another word in the place of the one it reads.
pub fn change(registers: &mut Registers, change: Change, word: Word) -> Word
    ensures word { result ≡ changed change word registers.old }
    ensures registers { registers.new ≡ change_left change word registers.old }
{
    let changed = match change {
        Change::Add => {
            registers.latch = registers.latch || word.sum_overflows(registers.a);
            word.plus(registers.a)
        }
        Change::StoreAddress => word.with_low(Address::low(registers.a.bits())),
        Change::StoreIndex(b) => word.with_low(registers.index(b)),
    };
    registers.go_on(1);
    changed
}
