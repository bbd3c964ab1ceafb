use registers::Index;

// What an instruction does at its effective address M.
#[derive(Clone, Copy, PartialEq, Eq, Debug)]
pub enum Operation {
    Jump,
    // reads the word at M
    Take(Take),
    // reads the words at M and M + 1
    TakeTwo(TakeTwo),
    // reads the word at M and puts another in its place
    Change(Change),
    // writes a register at M
    Store(Source),
    // writes A at M and Q at M + 1
    StoreTwo,
}

#[derive(Clone, Copy, PartialEq, Eq, Debug)]
pub enum Take {
    LoadA,
    LoadQ,
    LoadComplement,
    LoadMasked,
    Add,
    Subtract,
    Or,
    ExclusiveOr,
    And,
    Compare,
    LoadIndex(Index),
}

#[derive(Clone, Copy, PartialEq, Eq, Debug)]
pub enum TakeTwo {
    Load,
    LoadComplement,
    Add,
    Subtract,
}

#[derive(Clone, Copy, PartialEq, Eq, Debug)]
pub enum Change {
    Add,
    StoreAddress,
    StoreIndex(Index),
}

#[derive(Clone, Copy, PartialEq, Eq, Debug)]
pub enum Source {
    A,
    Q,
}
