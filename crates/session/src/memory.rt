use std::marker::Model;

// Memory of a fixed size, seen as what it holds.
#[derive(Drop)]
pub struct Block<T> {
    pub units: Vec<T>,
}

impl<T> Model for Block<T> {
    ghost use Rattle.std.specs.Prelude.{List};

    ghost Value = { List T };

    ghost view = { λ b. b.units.items };
}

// The memory that a deck builds a core over.
#[derive(Drop)]
pub enum Memory {
    Words(Block<u32>),
    Bytes(Block<u8>),
}

// What a deck has built so far.
#[derive(Drop)]
pub enum Pile {
    Nothing,
    // the words of an image, to be read and listed until a core is built
    Image(Block<u8>),
    One(Memory),
    // two cores, the earlier one in front
    Two(Memory, Memory),
    // the same, as one store
    Pair(Memory, Memory),
}
