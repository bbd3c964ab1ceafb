// What the third digit of an instruction names.
ghost use Rattle.std.specs.Prelude.{◌≡◌, ◌%◌, ◌<◌};
ghost use Rattle.instruction.specs.Digits.{counting, digit_index, digit_key, digit_relation, digit_target};
ghost use Rattle.instruction.specs.Intervals.{interval};

use crate::action::{Count, Extension, Relation, Target};
use crate::interval::Interval;
use registers::{Index, Key};

// An octal digit.
#[derive(Clone, Copy, PartialEq, Eq, Debug)]
pub(crate) struct Digit {
    pub(crate) value: u64,
    ghost octal: { value < 8 },
}

impl Digit {
    // The lowest digit of n.
    pub(crate) fn low(n: u64) -> Digit
        ensures { result.value ≡ n % 8 }
    {
        Digit { value: n % 8 }
    }
}

impl From<Digit> for Index {
    ghost from_gives = { λ d r. r ≡ digit_index d.value };

    fn from(digit: Digit) -> Index {
        match digit.value % 4 {
            0 => Index::B0,
            1 => Index::B1,
            2 => Index::B2,
            _ => Index::B3,
        }
    }
}

impl From<Digit> for Count {
    ghost from_gives = { λ d r. r ≡ counting d.value };

    fn from(digit: Digit) -> Count {
        if digit.value < 4 {
            Count::Up
        } else {
            Count::Down
        }
    }
}

impl From<Digit> for Key {
    ghost from_gives = { λ d r. r ≡ digit_key d.value };

    fn from(digit: Digit) -> Key {
        match digit.value {
            1 => Key::One,
            2 => Key::Two,
            3 => Key::Three,
            4 => Key::Four,
            5 => Key::Five,
            _ => Key::Six,
        }
    }
}

impl From<Digit> for Relation {
    ghost from_gives = { λ d r. r ≡ digit_relation d.value };

    fn from(digit: Digit) -> Relation {
        match digit.value % 4 {
            0 => Relation::Equal,
            1 => Relation::Unequal,
            2 => Relation::NotBelow,
            _ => Relation::Below,
        }
    }
}

impl From<Digit> for Target {
    ghost from_gives = { λ d r. r ≡ digit_target d.value };

    fn from(digit: Digit) -> Target {
        match digit.value {
            4 => Target::A(Extension::Sign),
            5 => Target::Q(Extension::Sign),
            6 => Target::A(Extension::Zero),
            7 => Target::Q(Extension::Zero),
            _ => Target::Index(Index::from(digit)),
        }
    }
}

impl From<Digit> for Interval {
    ghost from_gives = { λ d r. r ≡ interval d.value };

    // The digit, or 8 for 0.
    #[tactic(auto, using(crate::proofs::Same::same), unfolding(crate::specs::Intervals::interval))]
    fn from(digit: Digit) -> Interval {
        Interval {
            words: ((digit.value + 7) % 8 + 1) as u32,
        }
    }
}
