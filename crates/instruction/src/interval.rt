ghost use Rattle.std.specs.Prelude.{◌≡◌, ◌<◌, ◌≤◌};

// How far apart the words of a search lie: 1 to 8.
#[derive(Clone, Copy, PartialEq, Eq, Debug)]
pub struct Interval {
    pub(crate) words: u32,
    ghost some: { 0 < words },
    ghost few: { words ≤ 8 },
}

impl Interval {
    pub fn words(self) -> u32
        ensures { result ≡ self.words }
    {
        self.words
    }
}
