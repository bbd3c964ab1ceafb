ghost use Rattle.session.specs.Built.{Made};

use crate::memory::Memory;
use crate::misplaced::Misplaced;
use crate::unit::Unit;
use std::alloc::Global;

impl Memory {
    // So many zeros for a core.
    pub fn zeros<U: Unit>(heap: Global, count: u32) -> Result<Memory, Misplaced>
        ensures { Made U.memory U.ZERO U.MOST count result }
    {
        if count > U::MOST {
            return Err(Misplaced::Large);
        }
        Ok(U::memory(vec![in heap; U::ZERO; count as usize]?))
    }
}
