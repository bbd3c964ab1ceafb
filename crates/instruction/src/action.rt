use registers::{Index, Key};

// What an instruction without a memory operand does with its field y or m.
#[derive(Clone, Copy, PartialEq, Eq, Debug)]
pub enum Action {
    SelectJump(Key),
    IndexJump(Count, Index),
    ZeroJump(Relation),
    QJump(Relation),
    SkipEqual(Target),
    SkipNotBelow(Target),
    IndexSkip(Count, Index),
    Shift(Shifted, Index),
    Enter(Target),
    Increase(Target),
    ExclusiveOr(Target),
    And(Target),
}

// By one, up or down.
#[derive(Clone, Copy, PartialEq, Eq, Debug)]
pub enum Count {
    Up,
    Down,
}

#[derive(Clone, Copy, PartialEq, Eq, Debug)]
pub enum Relation {
    Equal,
    Unequal,
    NotBelow,
    Below,
}

// The register that an instruction works on, and how y is brought to its width.
#[derive(Clone, Copy, PartialEq, Eq, Debug)]
pub enum Target {
    Index(Index),
    A(Extension),
    Q(Extension),
}

#[derive(Clone, Copy, PartialEq, Eq, Debug)]
pub enum Extension {
    Sign,
    Zero,
}

#[derive(Clone, Copy, PartialEq, Eq, Debug)]
pub enum Shifted {
    A,
    Q,
    Both,
}
