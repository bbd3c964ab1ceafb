ghost use Rattle.std.specs.Prelude.{◌≡◌, Some};
ghost use Rattle.answers.specs.Names.{layer_name};
ghost use Rattle.answers.specs.Numbers.{layer_number};

use std::fmt;

// Which store gave a fault, by number.
#[derive(Clone, Copy, PartialEq, Eq, Debug)]
pub enum Layer {
    Plain = 1,
    Packed = 2,
    Pair = 3,
    Protection = 4,
    Relocation = 5,
}

impl Layer {
    pub fn number(self) -> u8
        ensures { result ≡ layer_number self }
    {
        self as u8
    }
}

impl fmt::Display for Layer {
    ghost output = { λ x. Some (layer_name x) };

    fn fmt<W: fmt::Write>(&self, f: &mut fmt::Formatter<W>) -> fmt::Result {
        f.write_str(match self {
            Layer::Plain => "plain core",
            Layer::Packed => "packed core",
            Layer::Pair => "pair",
            Layer::Protection => "protection",
            Layer::Relocation => "relocation",
        })
    }
}
