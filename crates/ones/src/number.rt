ghost use Rattle.std.specs.Prelude.{◌^◌, ◌<◌, ◌≤◌};

// A one's complement number of W bits. Its top bit is its sign, and there are two zeros: no bits and all bits.
#[derive(Clone, Copy, PartialEq, Eq, Debug)]
pub struct Ones<const W: u32> {
    pub(crate) bits: u64,
    ghost fits: { bits < 2 ^ W },
    ghost wide: { 0 < W },
    ghost narrow: { W ≤ 48 },
}
