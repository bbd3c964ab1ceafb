ghost use Rattle.std.specs.Prelude.{◌≡◌, Some};
ghost use Rattle.session.specs.declared.misplaced.Misplaced.TheVariants.{Memory as NoMemory};
ghost use Rattle.session.specs.Reasons.{reason};

use std::alloc::AllocError;
use std::fmt;

// Why a command cannot be obeyed where it stands.
#[derive(Clone, Copy, PartialEq, Eq, Debug)]
pub enum Misplaced {
    // its call is not built yet
    NotYet,
    // nothing is built that could be read or filled
    NoCore,
    // words for a core that is not plain
    NotPlain,
    // bytes for a core that is not packed
    NotPacked,
    // contents that do not fit into the core
    Outside,
    // a third core
    TwoCores,
    // a pair of other than two cores
    NotTwo,
    // two cores that are no pair yet
    NotPaired,
    // a second protection, or a core behind one
    Protected,
    // a range without a protection
    Unprotected,
    // a machine of another kind than 0
    Kind,
    // a building word after the machine
    Made,
    // a call before the machine
    Unmade,
    // a group's address of more than 15 bits
    Address,
    // a core larger than a deck may build
    Large,
    // want of memory
    Memory,
}

impl From<AllocError> for Misplaced {
    ghost from_gives = { λ _ e. e ≡ NoMemory };

    fn from(_: AllocError) -> Self {
        Self::Memory
    }
}

impl fmt::Display for Misplaced {
    ghost output = { λ x. Some (reason x) };

    fn fmt<W: fmt::Write>(&self, f: &mut fmt::Formatter<W>) -> fmt::Result {
        f.write_str(match self {
            Misplaced::NotYet => "not yet",
            Misplaced::NoCore => "no core is built",
            Misplaced::NotPlain => "the core named last is not plain",
            Misplaced::NotPacked => "the core named last is not packed",
            Misplaced::Outside => "does not fit into the core",
            Misplaced::TwoCores => "two cores are built already",
            Misplaced::NotTwo => "not two cores to pair",
            Misplaced::NotPaired => "the two cores are not paired",
            Misplaced::Protected => "protected already",
            Misplaced::Unprotected => "not protected",
            Misplaced::Kind => "no such kind of machine",
            Misplaced::Made => "the machine is made",
            Misplaced::Unmade => "no machine is made",
            Misplaced::Address => "address above 77777",
            Misplaced::Large => "core too large",
            Misplaced::Memory => "no memory",
        })
    }
}
