ghost use Rattle.std.specs.Prelude.{◌≡◌, ◌-◌, ◌+ℤ◌, ◌-ℤ◌, neg_ℤ, Decides};
ghost use Rattle.ones.specs.Plain.{ones, sum, crosses};
ghost use Rattle.ones.specs.Signed.{Within};
ghost use Rattle.ones.specs.Numbers.{complement, plus, minus, sum_overflows, difference_overflows, value};

use crate::number::Ones;

impl<const W: u32> Ones<W> {
    // The number with each bit turned: its negative.
    pub fn complement(self) -> Ones<W>
        ensures answer { result ≡ complement self.entry }
        ensures bits { result.bits ≡ ones W - self.entry.bits }
        ensures negated { value result ≡ neg_ℤ (value self.entry) }
    {
        Ones::of(self.turned())
    }

    // The sum, which is the exact one where W bits can hold that.
    pub fn plus(self, other: Ones<W>) -> Ones<W>
        ensures answer { result ≡ plus self.entry other.entry }
        ensures exact { Within W (value self.entry +ℤ value other.entry) → value result ≡ value self.entry +ℤ value other.entry }
        ensures all_ones { result.bits ≡ ones W → (self.entry.bits ≡ ones W) × (other.entry.bits ≡ ones W) }
    {
        Ones::of(self.sum(other))
    }

    // The difference, which is the exact one where W bits can hold that.
    pub fn minus(self, other: Ones<W>) -> Ones<W>
        ensures answer { result ≡ minus self.entry other.entry }
        ensures exact { Within W (value self.entry -ℤ value other.entry) → value result ≡ value self.entry -ℤ value other.entry }
        ensures all_ones { result.bits ≡ ones W → (self.entry.bits ≡ ones W) × (other.entry.bits ≡ 0) }
    {
        self.plus(other.complement())
    }

    // Whether the exact sum is no signed value of W bits.
    pub fn sum_overflows(self, other: Ones<W>) -> bool
        ensures answer { result ≡ sum_overflows self.entry other.entry }
        ensures exact { Decides result (Within W (value self.entry +ℤ value other.entry) → ⊥) }
    {
        self.crosses(other)
    }

    // Whether the exact difference is no signed value of W bits.
    pub fn difference_overflows(self, other: Ones<W>) -> bool
        ensures answer { result ≡ difference_overflows self.entry other.entry }
        ensures exact { Decides result (Within W (value self.entry -ℤ value other.entry) → ⊥) }
    {
        self.sum_overflows(other.complement())
    }

    fn turned(self) -> u64
        ensures { result ≡ ones W - self.entry.bits }
    {
        self.most() - self.bits
    }

    // The carry out of the top is added in at the bottom.
    fn sum(self, other: Ones<W>) -> u64
        ensures { result ≡ sum W self.entry.bits other.entry.bits }
    {
        let plain = self.bits + other.bits;
        let most = self.most();
        if plain < most { plain } else { plain - most }
    }

    // Whether two numbers of one sign have a sum of the other.
    fn crosses(self, other: Ones<W>) -> bool
        ensures { result ≡ crosses W self.entry.bits other.entry.bits }
    {
        let negative = self.negative();
        negative == other.negative() && (self.sum(other) >= self.sign()) != negative
    }
}
