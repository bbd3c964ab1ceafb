ghost use Rattle.std.specs.Prelude.{Some};
ghost use Rattle.printing.specs.Calls.{call_name, done};

use std::fmt;

// The calls that answer, by the word that a deck has for each.
#[derive(Clone, Copy, PartialEq, Eq, Debug)]
pub enum Call {
    Range,
    Image,
    Page,
    Absent,
    Read,
    Where,
}

impl fmt::Display for Call {
    ghost output = { λ x. Some (call_name x) };

    fn fmt<W: fmt::Write>(&self, f: &mut fmt::Formatter<W>) -> fmt::Result {
        f.write_str(match self {
            Call::Range => "range",
            Call::Image => "image",
            Call::Page => "page",
            Call::Absent => "absent",
            Call::Read => "read",
            Call::Where => "where",
        })
    }
}

// A call that was accepted and answers nothing more.
#[derive(Drop)]
pub struct Done(pub Call);

impl fmt::Display for Done {
    ghost output = { λ x. Some (done x.0) };

    fn fmt<W: fmt::Write>(&self, f: &mut fmt::Formatter<W>) -> fmt::Result {
        write!(f, "{} ok", self.0)
    }
}
