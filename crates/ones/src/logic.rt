ghost use Rattle.std.specs.Prelude.{◌≡◌};
ghost use Rattle.ones.specs.Numbers.{conjunction, disjunction, exclusive};

use crate::number::Ones;

impl<const W: u32> Ones<W> {
    // The bits that are set in both.
    pub fn and(self, other: Ones<W>) -> Ones<W>
        ensures { result ≡ conjunction self.entry other.entry }
    {
        Ones::of(self.bits & other.bits)
    }

    // The bits that are set in one or both.
    pub fn or(self, other: Ones<W>) -> Ones<W>
        ensures { result ≡ disjunction self.entry other.entry }
    {
        Ones::of(self.bits | other.bits)
    }

    // The bits that are set in one and not in the other.
    pub fn xor(self, other: Ones<W>) -> Ones<W>
        ensures { result ≡ exclusive self.entry other.entry }
    {
        Ones::of(self.bits ^ other.bits)
    }
}
