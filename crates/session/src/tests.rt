use crate::{Memory, Misplaced, Pile};
use std::test::Fail;

#[test]
fn a_core_of_each_unit(rt: HostRuntime) -> Result<(), Fail> {
    let mut pile = Pile::Nothing;
    assert_eq!(rt; pile.put(0, &[1u8]), Err(Misplaced::NoCore));
    pile.add(Memory::zeros::<u32>(rt.alloc(), 2)?)?;
    pile.put(1, &[0xff00_0005u32])?;
    assert_eq!(rt; pile.read(0), Some(Ok(0)));
    assert_eq!(rt; pile.read(1), Some(Ok(5)));
    assert_eq!(rt; pile.put(0, &[1u8]), Err(Misplaced::NotPacked));
    pile.add(Memory::zeros::<u8>(rt.alloc(), 7)?)?;
    pile.put(3, &[1u8, 2, 3])?;
    assert_eq!(rt; pile.read(0), Some(Ok(0)));
    assert_eq!(rt; pile.read(1), Some(Ok(0o201003)));
    assert_eq!(rt; pile.put(6, &[1u8, 2]), Err(Misplaced::Outside));
    assert_eq!(rt; pile.put(0, &[1u32]), Err(Misplaced::NotPlain));
    pile.pair()?;
    assert_eq!(rt; pile.whole(), Ok(()));
    Ok(())
}
