ghost use Rattle.std.specs.Prelude.{◌≡◌};
ghost use Rattle.deck.specs.Commands.{exactly};

use crate::problem::Problem;

// The numbers of a command that takes N.
pub(crate) fn exactly<const N: usize>(numbers: &[u32]) -> Result<[u32; N], Problem>
    ensures { result ≡ exactly N numbers.now }
{
    match <[u32; N]>::try_from(numbers) {
        Ok(taken) => Ok(taken),
        Err(_) if numbers.len() < N => Err(Problem::Few),
        Err(_) => Err(Problem::Many),
    }
}
