ghost use Rattle.std.specs.Prelude.{◌≡◌, ◌+◌, ◌*◌, ◌/◌, ◌%◌, ◌^◌};
ghost use Rattle.ones.specs.Plain.{widened};
ghost use Rattle.ones.specs.Numbers.{address, counted, word, with_low, double, extended, joined, upper, lower, value};

use crate::{Address, Double, Word};

// `low` stands once for each width, over the one `of`: a public function asks nothing of its caller, and of width 0 or 49 there is no number.
impl Address {
    // The low 15 bits of n.
    pub fn low(n: u64) -> Address
        ensures answer { result ≡ address n }
        ensures bits { result.bits ≡ n % 2 ^ 15 }
    {
        Address::of(n)
    }

    // Counted on, with 00000 after 77777.
    pub fn counted(self, n: u32) -> Address
        ensures answer { result ≡ counted self n }
        ensures bits { result.bits ≡ (self.bits + n) % 2 ^ 15 }
    {
        Address::low(self.bits + u64::from(n))
    }

    // The word with copies of the sign above the number.
    pub fn extended(self) -> Word
        ensures answer { result ≡ extended self }
        ensures signed { value result ≡ value self }
    {
        Word::low(self.widened())
    }

    fn widened(self) -> u64
        ensures { result ≡ widened 15 24 self.bits }
    {
        if self.negative() {
            self.bits + 0xff_8000
        } else {
            self.bits
        }
    }
}

impl Word {
    // The low 24 bits of n.
    pub fn low(n: u64) -> Word
        ensures answer { result ≡ word n }
        ensures bits { result.bits ≡ n % 2 ^ 24 }
    {
        Word::of(n)
    }

    // The word with other low 15 bits; its upper nine stay.
    pub fn with_low(self, low: Address) -> Word
        ensures answer { result ≡ with_low self low }
        ensures upper { result.bits / 2 ^ 15 ≡ self.bits / 2 ^ 15 }
        ensures lower { result.bits % 2 ^ 15 ≡ low.bits }
    {
        Word::low(self.bits / 0x8000 * 0x8000 + low.bits)
    }

    fn above(self, other: Word) -> u64
        ensures { result ≡ self.bits * 2 ^ 24 + other.bits }
    {
        (self.bits << 24) + other.bits
    }
}

impl Double {
    // The low 48 bits of n.
    pub fn low(n: u64) -> Double
        ensures answer { result ≡ double n }
        ensures bits { result.bits ≡ n % 2 ^ 48 }
    {
        Double::of(n)
    }

    // Two words as one number, the first above the second.
    pub fn joined(first: Word, second: Word) -> Double
        ensures answer { result ≡ joined first second }
        ensures upper { upper result ≡ first }
        ensures lower { lower result ≡ second }
    {
        Double::low(first.above(second))
    }

    pub fn upper(self) -> Word
        ensures { result ≡ upper self }
    {
        Word::low(self.bits >> 24)
    }

    pub fn lower(self) -> Word
        ensures { result ≡ lower self }
    {
        Word::low(self.bits)
    }
}
