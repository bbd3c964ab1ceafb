ghost use Rattle.std.specs.Prelude.{◌≡◌, ◌^◌, ◌<◌, ◌≤◌, MatchResult};
ghost use Rattle.answers.specs.declared.refusal.Refusal.TheVariants as refusals;
ghost use Rattle.machine.specs.Loads.{running, unless_wide};

use answers::Refusal;
use ones::Ones;
use registers::{Record, Registers, State};

// What a register load brings, in numbers from outside.
#[derive(Clone, Copy, PartialEq, Eq, Debug)]
pub struct Load {
    pub a: u32,
    pub q: u32,
    pub b1: u32,
    pub b2: u32,
    pub b3: u32,
    pub p: u32,
}

// No value may be too wide for its register; the latch is clear.
impl TryFrom<Load> for Registers {
    type Error = Refusal;

    ghost try_from_gives = { λ l r. r ≡ unless_wide l };

    fn try_from(load: Load) -> Result<Registers, Refusal> {
        Ok(Registers {
            a: value(load.a)?,
            q: value(load.q)?,
            b1: value(load.b1)?,
            b2: value(load.b2)?,
            b3: value(load.b3)?,
            p: value(load.p)?,
            latch: false,
        })
    }
}

fn value<const W: u32>(n: u32) -> Result<Ones<W>, Refusal>
    ensures { MatchResult result (λ a. a.bits ≡ n) (λ e. (e ≡ refusals.Value) × (0 < W → W ≤ 48 → n < 2 ^ W → ⊥)) }
{
    Ones::new(u64::from(n)).ok_or(Refusal::Value)
}

// Sets all registers and makes the group run.
pub(crate) fn fill(record: &mut Record, registers: Registers)
    ensures { «record».new ≡ running registers }
{
    record.registers = registers;
    record.state = State::Running;
}
