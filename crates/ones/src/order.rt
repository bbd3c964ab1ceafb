ghost use Rattle.std.specs.Prelude.{◌≡◌, ◌-◌, ◌^◌, ◌⊎◌, ◌<ℤ◌, Decides};
ghost use Rattle.ones.specs.Plain.{ones, negative, flipped, settled};
ghost use Rattle.ones.specs.Numbers.{below, alike, value};

use crate::number::Ones;

impl<const W: u32> Ones<W> {
    // Signed order, in which negative zero lies just below positive zero. Not `PartialOrd`: the machine has the plain order too,
    // and its names tell the two apart.
    pub fn below(self, other: Ones<W>) -> bool
        ensures answer { result ≡ below self.entry other.entry }
        ensures signed { Decides result ((value self.entry <ℤ value other.entry) ⊎ ((self.entry.bits ≡ ones W) × (other.entry.bits ≡ 0))) }
    {
        self.flipped() < other.flipped()
    }

    // Equality, with the two zeros alike. Not `PartialEq`: that one tells the zeros apart, as the machine does elsewhere.
    pub fn alike(self, other: Ones<W>) -> bool
        ensures answer { result ≡ alike self.entry other.entry }
        ensures signed { Decides result (value self.entry ≡ value other.entry) }
    {
        self.settled() == other.settled()
    }

    // The plain number with the sign turned.
    fn flipped(self) -> u64
        ensures { result ≡ flipped W self.entry.bits }
    {
        if self.negative() {
            self.bits - self.sign()
        } else {
            self.bits + self.sign()
        }
    }

    // The plain number, with one zero for both.
    fn settled(self) -> u64
        ensures { result ≡ settled W self.entry.bits }
    {
        if self.bits == self.most() {
            0
        } else {
            self.bits
        }
    }

    // The number whose one bit is the sign.
    pub(crate) fn sign(self) -> u64
        ensures { result ≡ 2 ^ (W - 1) }
    {
        1 << (W - 1)
    }

    pub(crate) fn negative(self) -> bool
        ensures { result ≡ negative W self.entry.bits }
    {
        self.bits >= self.sign()
    }
}
