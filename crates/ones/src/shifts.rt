ghost use Rattle.std.specs.Prelude.{◌≡◌, ℕ, ◌+◌, ◌-◌, ◌%◌, ◌^◌, ◌<◌, ◌≤◌};
ghost use Rattle.ones.specs.Plain.{bit, rotated, shifted};
ghost use Rattle.ones.specs.Signed.{quotient};
ghost use Rattle.ones.specs.Numbers.{left, right, value};

use crate::number::Ones;

impl<const W: u32> Ones<W> {
    // Moved to the left, end around.
    pub fn left(self, count: u32) -> Ones<W>
        ensures answer { result ≡ left self.entry count }
        ensures around { (i : ℕ) → i < W → bit ((i + count) % W) result.bits ≡ bit i self.entry.bits }
    {
        Ones::of(self.rotated(count % W))
    }

    // Moved to the right, with copies of the sign coming in.
    pub fn right(self, count: u32) -> Ones<W>
        ensures answer { result ≡ right self.entry count }
        ensures signed { value result ≡ quotient (value self.entry) count }
    {
        Ones::of(self.shifted(count.min(W)))
    }

    fn rotated(self, places: u32) -> u64
        requires { places < W }
        ensures { result ≡ rotated W places self.entry.bits }
    {
        let high = self.bits >> (W - places);
        (self.rest(places) << places) + high
    }

    // The number without the bits that leave at the top.
    fn rest(self, places: u32) -> u64
        requires { places < W }
        ensures answer { result ≡ self.entry.bits % 2 ^ (W - places) }
        ensures room { rotated W places self.entry.bits < 2 ^ W }
    {
        self.bits % (1 << (W - places))
    }

    fn shifted(self, places: u32) -> u64
        requires { places ≤ W }
        ensures { result ≡ shifted W places self.entry.bits }
    {
        if self.negative() {
            self.most() - (self.most() - self.bits >> places)
        } else {
            self.bits >> places
        }
    }
}
