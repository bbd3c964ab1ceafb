ghost use Rattle.std.specs.Prelude.{List};
ghost use Rattle.layers.specs.declared.range.Range.{Range};

use arrayvec::ArrayVec;
use std::marker::Model;

// The addresses from low to high, both among them.
#[derive(Clone, Copy, PartialEq, Eq, Debug, Default)]
pub struct Range {
    pub low: u32,
    pub high: u32,
}

pub const MOST: usize = 16;

// At most sixteen ranges, in the order in which they were added.
#[derive(Drop)]
pub struct Ranges {
    pub(crate) table: ArrayVec<Range, MOST>,
}

// Clauses see the ranges.
impl Model for Ranges {
    ghost Value = { List Range };

    ghost view = { λ r. r.table.items };
}
