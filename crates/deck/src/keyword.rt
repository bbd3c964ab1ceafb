ghost use Rattle.std.specs.Prelude.{◌≡◌};
ghost use Rattle.std.specs.Option.{ok_or};
ghost use Rattle.deck.specs.Keywords.{keyword_name, keyword};
ghost use Rattle.deck.specs.declared.problem.Problem.TheVariants.{Unknown};

use crate::problem::Problem;

// A command whose arguments are numbers.
#[derive(Clone, Copy)]
pub(crate) enum Keyword {
    Plain,
    Packed,
    Words,
    Bytes,
    Pair,
    Protect,
    Machine,
    Range,
    Image,
    Page,
    Absent,
    Load,
    Turn,
    Report,
    Read,
    Write,
    List,
    Where,
}

// A table for `find`: a match on the bytes of eighteen words leaves goals that the check does not prove.
const ALL: [Keyword; 18] = [
    Keyword::Plain,
    Keyword::Packed,
    Keyword::Words,
    Keyword::Bytes,
    Keyword::Pair,
    Keyword::Protect,
    Keyword::Machine,
    Keyword::Range,
    Keyword::Image,
    Keyword::Page,
    Keyword::Absent,
    Keyword::Load,
    Keyword::Turn,
    Keyword::Report,
    Keyword::Read,
    Keyword::Write,
    Keyword::List,
    Keyword::Where,
];

impl Keyword {
    fn name(self) -> &'static str
        ensures { result.now ≡ keyword_name self }
    {
        match self {
            Keyword::Plain => "plain",
            Keyword::Packed => "packed",
            Keyword::Words => "words",
            Keyword::Bytes => "bytes",
            Keyword::Pair => "pair",
            Keyword::Protect => "protect",
            Keyword::Machine => "machine",
            Keyword::Range => "range",
            Keyword::Image => "image",
            Keyword::Page => "page",
            Keyword::Absent => "absent",
            Keyword::Load => "load",
            Keyword::Turn => "turn",
            Keyword::Report => "report",
            Keyword::Read => "read",
            Keyword::Write => "write",
            Keyword::List => "list",
            Keyword::Where => "where",
        }
    }
}

impl TryFrom<&[u8]> for Keyword {
    type Error = Problem;

    ghost try_from_gives = { λ word r. r ≡ ok_or (keyword word.now) Unknown };

    fn try_from(word: &[u8]) -> Result<Keyword, Problem> {
        ALL.iter()
            .find(|k| k.name().as_bytes() == word)
            .copied()
            .ok_or(Problem::Unknown)
    }
}
