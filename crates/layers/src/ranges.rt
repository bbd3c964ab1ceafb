ghost use Rattle.std.specs.Prelude.{◌≡◌, [], length};
ghost use Rattle.layers.specs.Ranges.{added, admits, covered, inside};

use crate::range::{Range, Ranges};
use answers::Refusal;
use arrayvec::ArrayVec;
use store::WORDS;

impl Ranges {
    pub fn new() -> Ranges
        ensures { result ≡ [] }
    {
        Ranges {
            table: ArrayVec::new(),
        }
    }

    // One range more, or a refusal that changes nothing.
    pub fn add(&mut self, low: u32, high: u32) -> Result<(), Refusal>
        ensures answer { result ≡ admits (length self.old) low high }
        ensures after { self.new ≡ added result self.old low high }
    {
        if low > high || high >= WORDS {
            return Err(Refusal::Range);
        }
        if self.table.is_full() {
            return Err(Refusal::Ranges);
        }
        self.table.push(Range { low, high });
        Ok(())
    }

    pub fn cover(&self, address: u32) -> bool
        ensures { result ≡ covered self.now address }
    {
        self.table.iter().any(|range| range.covers(address))
    }
}

impl Range {
    fn covers(&self, address: u32) -> bool
        ensures { result ≡ inside self.now address }
    {
        (self.low..=self.high).contains(&address)
    }
}
