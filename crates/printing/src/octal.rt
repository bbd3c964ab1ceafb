ghost use Rattle.std.specs.Prelude.{◌<◌, ◌≤◌, Some};
ghost use Rattle.printing.specs.Texts.{octal, octal_address};

use std::fmt;

// The low octal digits of a number: one at least, and no more than the 21 that fit any u64.
#[derive(Clone, Copy, PartialEq, Eq, Debug)]
pub struct Octal<const DIGITS: usize> {
    pub number: u32,
    ghost some_digit: { 0 < DIGITS },
    ghost fits_u64: { DIGITS ≤ 21 },
}

// A word of 24 bits.
pub type OctalWord = Octal<8>;

// An address field of 15 bits.
pub type OctalField = Octal<5>;

// The six jump keys.
pub type OctalKeys = Octal<2>;

impl<const DIGITS: usize> fmt::Display for Octal<DIGITS> {
    ghost output = { λ x. Some (octal DIGITS x.number) };

    fn fmt<W: fmt::Write>(&self, f: &mut fmt::Formatter<W>) -> fmt::Result {
        let low = u64::from(self.number) % (1 << (3 * DIGITS));
        write!(f, "{low:0DIGITS$o}")
    }
}

// A core address, in six octal digits, or in eleven where it is too large for any core.
#[derive(Clone, Copy, PartialEq, Eq, Debug)]
pub struct OctalAddress(pub u32);

impl fmt::Display for OctalAddress {
    ghost output = { λ x. Some (octal_address x.0) };

    fn fmt<W: fmt::Write>(&self, f: &mut fmt::Formatter<W>) -> fmt::Result {
        let number = self.0;
        if number < 0o1_000_000 {
            write!(f, "{}", Octal::<6> { number })
        } else {
            write!(f, "{}", Octal::<11> { number })
        }
    }
}
