ghost use Rattle.std.specs.Prelude.{◌<◌};

// The six jump keys of the operator, a bit each.
#[derive(Clone, Copy, PartialEq, Eq, Debug)]
pub struct Keys {
    pub(crate) bits: u8,
    ghost fits: { bits < 64 },
}
