ghost use Rattle.std.specs.Prelude.{◌≡◌, ◌<◌, ◌≤◌, MatchResult};
ghost use Rattle.answers.specs.declared.refusal.Refusal.TheVariants as refusals;

use answers::Refusal;

// One of the eight program groups.
#[derive(Clone, Copy, PartialEq, Eq, Debug)]
pub struct Group {
    pub(crate) number: u8,
    ghost fits: { number < 8 },
}

impl TryFrom<u32> for Group {
    type Error = Refusal;

    ghost try_from_gives = { λ n r. MatchResult r (λ g. g.number ≡ n) (λ e. (e ≡ refusals.Group) × (8 ≤ n)) };

    fn try_from(n: u32) -> Result<Group, Refusal> {
        if n < 8 {
            Ok(Group { number: n as u8 })
        } else {
            Err(Refusal::Group)
        }
    }
}

impl Group {
    pub fn number(self) -> u8
        ensures answer { result ≡ self.number }
        ensures fits { result < 8 }
    {
        self.number
    }
}
