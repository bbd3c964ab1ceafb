ghost use Rattle.std.specs.Prelude.{◌≡◌, ◌%◌, ◌^◌, ◌<◌, ◌≤◌, MatchOption};
ghost use Rattle.ones.specs.Plain.{ones};
ghost use Rattle.ones.specs.Numbers.{low};

use crate::number::Ones;

impl<const W: u32> Ones<W> {
    // The number n, where n has at most W bits.
    pub fn new(n: u64) -> Option<Ones<W>>
        ensures { MatchOption result (0 < W → W ≤ 48 → n < 2 ^ W → ⊥) (λ a. a.bits ≡ n) }
    {
        if W > 0 && W <= 48 && n < 1 << W {
            Some(Ones { bits: n })
        } else {
            None
        }
    }

    pub fn bits(self) -> u64
        ensures answer { result ≡ self.entry.bits }
        ensures fits { result < 2 ^ W }
    {
        self.bits
    }

    // The low W bits of n.
    pub(crate) fn of(n: u64) -> Ones<W>
        requires { (0 < W) × (W ≤ 48) }
        ensures bits { result.bits ≡ n % 2 ^ W }
        ensures answer { (wide : 0 < W) (narrow : W ≤ 48) → result ≡ low W wide narrow n }
    {
        Ones { bits: n % (1 << W) }
    }

    // The number of W ones.
    pub(crate) fn most(self) -> u64
        ensures { result ≡ ones W }
    {
        (1 << W) - 1
    }
}
