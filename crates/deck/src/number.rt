ghost use Rattle.std.specs.Prelude.{◌≡◌, ◌≤◌};
ghost use Rattle.deck.specs.Numbers.{radix, numeral, number};

use crate::problem::Problem;

// What a numeral is written in.
#[derive(Clone, Copy)]
enum Base {
    Octal,
    Decimal,
    Hexadecimal,
}

impl Base {
    fn radix(self) -> u32
        ensures value { result ≡ radix self }
        ensures above { 2 ≤ result }
        ensures within { result ≤ 16 }
    {
        match self {
            Base::Octal => 8,
            Base::Decimal => 10,
            Base::Hexadecimal => 16,
        }
    }
}

// The number that the digits of a base write. `from_str_radix` reads text, and takes a plus sign.
fn read_digits(base: Base, digits: &[u8]) -> Result<u32, Problem>
    ensures { result ≡ numeral (radix base) digits.now }
{
    let radix = base.radix();
    if digits.is_empty() {
        return Err(Problem::Number);
    }
    let mut value = Some(0u32);
    for b in digits {
        let digit = char::from(*b).to_digit(radix).ok_or(Problem::Number)?;
        value = value.and_then(|n: u32| n.checked_mul(radix)?.checked_add(digit));
    }
    value.ok_or(Problem::Large)
}

// Reads a word as a number.
pub fn read_number(word: &[u8]) -> Result<u32, Problem>
    ensures { result ≡ number word.now }
{
    match word {
        [b'0', b'o', digits @ ..] => read_digits(Base::Octal, digits),
        [b'0', b'x', digits @ ..] => read_digits(Base::Hexadecimal, digits),
        _ => read_digits(Base::Decimal, word),
    }
}
