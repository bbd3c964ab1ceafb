ghost use Rattle.std.specs.Prelude.{◌≡◌, Some};
ghost use Rattle.answers.specs.Names.{refusal_name};
ghost use Rattle.answers.specs.Numbers.{refusal_fault, refusal_number};

use crate::fault::Fault;
use std::fmt;

// Why a call is refused. A refused call changes nothing.
#[derive(Clone, Copy, PartialEq, Eq, Debug)]
pub enum Refusal {
    // a group above 7
    Group,
    // a turn's length that is not 1 to 10,000
    Length,
    // keys above 63
    Keys,
    // a turn of a stopped group
    Stopped,
    // a loaded value too wide for its register
    Value,
    // a page entry above 15
    Entry,
    // a descriptor outside its limits
    Descriptor,
    // the core gives the operator a fault
    Core(Fault),
    // an operator's word of 2^24 or more
    Word,
    // a range whose low end is above its high end, or whose high end is above 262,143
    Range,
    // a seventeenth range
    Ranges,
    // an image of fewer than ten bytes
    ImageShort,
    // an image without its mark
    ImageMark,
    // an image of a version other than 1
    ImageVersion,
    // an image of more than 4,096 words, or of another length than its words want
    ImageLength,
}

impl Refusal {
    pub fn number(self) -> u8
        ensures { result ≡ refusal_number self }
    {
        match self {
            Refusal::Group => 1,
            Refusal::Length => 2,
            Refusal::Keys => 3,
            Refusal::Stopped => 4,
            Refusal::Value => 5,
            Refusal::Entry => 6,
            Refusal::Descriptor => 7,
            Refusal::Core(_) => 8,
            Refusal::Word => 9,
            Refusal::Range => 10,
            Refusal::Ranges => 11,
            Refusal::ImageShort => 12,
            Refusal::ImageMark => 13,
            Refusal::ImageVersion => 14,
            Refusal::ImageLength => 15,
        }
    }

    // The fault behind a refusal that has one.
    pub fn fault(self) -> Option<Fault>
        ensures { result ≡ refusal_fault self }
    {
        match self {
            Refusal::Core(fault) => Some(fault),
            _ => None,
        }
    }
}

impl fmt::Display for Refusal {
    ghost output = { λ x. Some (refusal_name x) };

    fn fmt<W: fmt::Write>(&self, f: &mut fmt::Formatter<W>) -> fmt::Result {
        f.write_str(match self {
            Refusal::Group => "group above 7",
            Refusal::Length => "turn length not 1 to 10000",
            Refusal::Keys => "keys above 63",
            Refusal::Stopped => "group is stopped",
            Refusal::Value => "value too wide for its register",
            Refusal::Entry => "page entry above 15",
            Refusal::Descriptor => "descriptor outside its limits",
            Refusal::Core(_) => "core fault",
            Refusal::Word => "word of more than 24 bits",
            Refusal::Range => "range outside the core",
            Refusal::Ranges => "seventeenth range",
            Refusal::ImageShort => "image under 10 bytes",
            Refusal::ImageMark => "image without the mark RCK",
            Refusal::ImageVersion => "image version not 1",
            Refusal::ImageLength => "image length does not fit its words",
        })
    }
}
