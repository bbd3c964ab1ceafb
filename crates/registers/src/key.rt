ghost use Rattle.std.specs.Prelude.{◌≡◌, ◌<◌, ok_or};
ghost use Rattle.answers.specs.declared.refusal.Refusal.TheVariants as refusals;
ghost use Rattle.registers.specs.Keys.{key_set, key_weight, keys_from};

use crate::keys::Keys;
use answers::Refusal;

// One of the jump keys, by the worth of its bit.
#[derive(Clone, Copy, PartialEq, Eq, Debug)]
pub enum Key {
    One = 1,
    Two = 2,
    Three = 4,
    Four = 8,
    Five = 16,
    Six = 32,
}

impl TryFrom<u32> for Keys {
    type Error = Refusal;

    ghost try_from_gives = { λ n r. r ≡ ok_or (keys_from n) refusals.Keys };

    fn try_from(n: u32) -> Result<Keys, Refusal> {
        if n < 64 {
            Ok(Keys { bits: n as u8 })
        } else {
            Err(Refusal::Keys)
        }
    }
}

impl Keys {
    pub fn set(self, key: Key) -> bool
        ensures { result ≡ key_set self key }
    {
        self.bits / key.weight() % 2 == 1
    }
}

impl Key {
    // The worth of the key's bit.
    fn weight(self) -> u8
        ensures answer { result ≡ key_weight self }
        ensures some { 0 < result }
    {
        self as u8
    }
}
